// An entry of a type table: a form and the numbers of the two types that it joins.
use crate::form::Form;

#[derive(Clone, Copy, PartialEq, Eq, Debug)]
pub struct Entry {
    pub form: Form,
    pub left: u16,
    pub right: u16,
    // Says nothing: with it a `Result` may hold what lends entries.
    ghost plain: { Unit {0} },
}

impl Entry {
    // What stands in an unused place of a type table.
    pub const BLANK: Entry = Entry {
        form: Form::Blank,
        left: 0,
        right: 0,
    };
}
