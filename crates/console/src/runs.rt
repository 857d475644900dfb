// What a table holds, with equal neighbours written once.
use crate::words::{EntryWord, NodeWord};
use calculus::entry::Entry;
use calculus::node::Node;
use std::fmt;

// What a table may hold. (No Display: a byte is shown as two hexadecimal digits here, and nodes and entries are types of another
// crate.)
pub trait TableItem: Copy + PartialEq {
    // Writes the word that stands for it.
    fn write_word<W: fmt::Write>(&self, f: &mut fmt::Formatter<W>) -> fmt::Result;
}

impl TableItem for Node {
    fn write_word<W: fmt::Write>(&self, f: &mut fmt::Formatter<W>) -> fmt::Result {
        write!(f, "{}", NodeWord(*self))
    }
}

impl TableItem for Entry {
    fn write_word<W: fmt::Write>(&self, f: &mut fmt::Formatter<W>) -> fmt::Result {
        write!(f, "{}", EntryWord(*self))
    }
}

impl TableItem for u32 {
    fn write_word<W: fmt::Write>(&self, f: &mut fmt::Formatter<W>) -> fmt::Result {
        write!(f, "{}", *self)
    }
}

impl TableItem for u8 {
    fn write_word<W: fmt::Write>(&self, f: &mut fmt::Formatter<W>) -> fmt::Result {
        write!(f, "{:02x}", *self)
    }
}

// A table shown as its words, a space before each; `WORD*K` stands for K equal ones in a row.
#[derive(Drop)]
pub struct Runs<'a, T: TableItem>(pub &'a [T]);

impl<T: TableItem> fmt::Display for Runs<'_, T> {
    fn fmt<W: fmt::Write>(&self, f: &mut fmt::Formatter<W>) -> fmt::Result {
        for run in self.0.chunk_by(|x, y| x == y) {
            if let Some(item) = run.first() {
                f.write_str(" ")?;
                item.write_word(f)?;
            }
            if run.len() > 1 {
                write!(f, "*{}", run.len())?;
            }
        }
        Ok(())
    }
}
