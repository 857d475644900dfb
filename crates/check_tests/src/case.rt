// What a case is: a rule, and what check must say of it.
use std::fmt;

// What check must say. It is no Result, since it stands in each line of the tables, where `Err(No(..))` says no more; the refusal
// is in numbers, since these are what is tested.
#[derive(Clone, Copy)]
pub enum Due {
    // The number of the rule's type, and the entries that are added to the table.
    Type(u16, &'static str),
    // The number, the place and the child of the refusal.
    No(u8, u16, u8),
}

impl Due {
    // The entries that are added to the table.
    pub fn added(&self) -> &'static str {
        match self {
            Due::Type(_, added) => added,
            Due::No(..) => "",
        }
    }
}

// A rule, and what is due.
#[derive(Clone, Copy)]
pub struct Case(pub &'static str, pub Due);

// Cases with the same profile and the same entries after the given six.
#[derive(Clone, Copy)]
pub struct Group {
    pub title: &'static str,
    pub profile: u32,
    pub types: &'static str,
    pub cases: &'static [Case],
}

// A call at an edge: a rule, the entries of the type table, their count, how long the type table and the scratch list are, and
// what is due. The fields have no names, so that an edge is a line of its table.
#[derive(Clone, Copy)]
pub struct Edge(
    pub &'static str,
    pub &'static str,
    pub usize,
    pub usize,
    pub usize,
    pub Due,
);

impl fmt::Display for Due {
    fn fmt<W: fmt::Write>(&self, f: &mut fmt::Formatter<W>) -> fmt::Result {
        match self {
            Due::Type(number, "") => write!(f, "type {number}"),
            Due::Type(number, added) => write!(f, "type {number}, adds {added}"),
            Due::No(number, place, child) => write!(f, "refused {number} {place} {child}"),
        }
    }
}

impl fmt::Display for Case {
    fn fmt<W: fmt::Write>(&self, f: &mut fmt::Formatter<W>) -> fmt::Result {
        let Case(rule, due) = self;
        write!(f, "{rule}: {due}")
    }
}

impl fmt::Display for Edge {
    fn fmt<W: fmt::Write>(&self, f: &mut fmt::Formatter<W>) -> fmt::Result {
        let Edge(rule, types, count, table, words, due) = self;
        write!(
            f,
            "[{rule}] [{types}] count {count} of {table}, scratch {words}: {due}"
        )
    }
}
