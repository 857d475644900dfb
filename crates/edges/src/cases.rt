// What a case is: a call and what it is given.
use std::fmt;

// A call and what it is given. Files, nodes and types are texts of words. A case stands in a static table and is printed too,
// so it is an enum and no closure.
#[derive(Clone, Copy)]
pub enum Case {
    // Load a file, with more than enough room.
    Load(&'static str),
    // Load the first so many bytes of a file.
    LoadFirst(usize, &'static str),
    // Load into so many nodes and so many entries.
    LoadInto(usize, usize, &'static str),
    // Write these nodes and these types, under this count, to so many bytes.
    Write(&'static str, &'static str, usize, usize),
    // Load a file, write what was loaded and load what was written.
    RoundTrip(&'static str),
}

impl fmt::Display for Case {
    fn fmt<W: fmt::Write>(&self, f: &mut fmt::Formatter<W>) -> fmt::Result {
        match self {
            Case::Load(file) => write!(f, "load {file}"),
            Case::LoadFirst(length, file) => write!(f, "load {length} bytes of {file}"),
            Case::LoadInto(nodes, types, file) => write!(f, "load into {nodes} and {types} {file}"),
            Case::Write(nodes, types, count, room) => {
                write!(f, "write [{nodes}] [{types}] count {count} room {room}")
            }
            Case::RoundTrip(file) => write!(f, "round trip {file}"),
        }
    }
}

// The cases of one edge.
#[derive(Clone, Copy)]
pub struct Edge {
    pub title: &'static str,
    pub cases: &'static [Case],
}
