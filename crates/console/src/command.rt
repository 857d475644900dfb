// The commands of a script, one a line, and why a line cannot be read.
ghost use Rattle.std.specs.Prelude.{◌≡◌};
ghost use Rattle.console.specs.declared.command.LineError.TheVariants.{Memory};

use crate::hexadecimal::bytes_of;
use crate::host_words::profile_of;
use crate::words::{Length, WordError, Worded, decimal, small_number};
use calculus::entry::Entry;
use calculus::node::Node;
use hosts::line::Line;
use hosts::version::Version;
use std::alloc::{AllocError, AllocFailed, Global};
use std::error::Error;
use std::fmt;
use std::str::SplitWhitespace;

// What a line says. A line is read whole before anything is done, so a command is a value and no closure.
#[derive(Drop)]
pub enum Command {
    Tables(Lengths),
    File(Vec<u8>),
    Load,
    Nodes(Vec<Node>),
    Types(Vec<Entry>),
    Entry { place: usize, entry: Entry },
    Count(usize),
    Write,
    Dump(Table),
    Listing { today: u16, versions: Vec<Version> },
    Sheet { profile: u32, lines: Vec<Line> },
    Profile,
    Ask { question: u16, number: u16 },
}

// How long new tables are.
#[derive(Clone, Copy)]
pub struct Lengths {
    pub nodes: usize,
    pub types: usize,
    pub scratch: usize,
    pub bytes: usize,
}

#[derive(Clone, Copy)]
pub enum Table {
    Nodes,
    Types,
    Scratch,
    Bytes,
}

// Why a line is answered with an error.
#[derive(Clone, Copy, PartialEq, Eq, Debug)]
pub enum LineError<'a> {
    Memory,
    NotText,
    Unknown(&'a str),
    Usage(&'static str),
    Word { word: &'a str, error: WordError },
    NoEntry { place: usize, entries: usize },
}

impl<'a> From<AllocError> for LineError<'a> {
    ghost from_gives = { λ _ r. r ≡ Memory };

    fn from(_e: AllocError) -> LineError<'a> {
        LineError::Memory
    }
}

impl<'a, T: Drop> From<AllocFailed<T>> for LineError<'a> {
    fn from(_e: AllocFailed<T>) -> LineError<'a> {
        LineError::Memory
    }
}

impl Error for LineError<'_> {}

impl fmt::Display for LineError<'_> {
    fn fmt<W: fmt::Write>(&self, f: &mut fmt::Formatter<W>) -> fmt::Result {
        match *self {
            LineError::Memory => f.write_str("out of memory"),
            LineError::NotText => f.write_str("the line is not UTF-8 text"),
            LineError::Unknown(name) => write!(
                f,
                "{name}: unknown; the commands are tables, file, load, nodes, types, entry, count, write, dump, listing, sheet, profile and ask"
            ),
            LineError::Usage(usage) => write!(f, "expected {usage}"),
            LineError::Word { word, error } => write!(f, "{word}: {error}"),
            LineError::NoEntry { place, entries } => {
                write!(
                    f,
                    "there is no entry {place}: the type table has {entries} entries"
                )
            }
        }
    }
}

// The command that a line says, or none where it is blank or a comment.
pub fn command_of<'a>(heap: Global, line: &'a str) -> Result<Option<Command>, LineError<'a>> {
    let mut words = line.split_whitespace();
    let Some(name) = words.next() else {
        return Ok(None);
    };
    if name.starts_with('#') {
        return Ok(None);
    }
    let usage = usage_of(name).ok_or(LineError::Unknown(name))?;
    let command = command_with(heap, name, words)?.ok_or(LineError::Usage(usage))?;
    Ok(Some(command))
}

// What a command's line has to be like, or none where there is no command of this name.
fn usage_of(name: &str) -> Option<&'static str> {
    Some(match name {
        "tables" => "tables NODES TYPES SCRATCH BYTES",
        "file" => "file HEX, with two hexadecimal digits a byte",
        "load" => "load and no more",
        "nodes" => "nodes WORD..",
        "types" => "types WORD..",
        "entry" => "entry I WORD",
        "count" => "count K",
        "write" => "write and no more",
        "dump" => "dump nodes, dump types, dump scratch or dump bytes",
        "listing" => "listing TODAY [PUBLISHED/WITHDRAWN/LINE/PATCH ..]",
        "sheet" => "sheet PROFILE [QUESTION/NUMBER/A/B ..], the profile as 8 hexadecimal digits",
        "profile" => "profile and no more",
        "ask" => "ask QUESTION NUMBER, each at most 65535",
        _ => return None,
    })
}

// The command of this name with these words, or none where it is not to be used so. (None and no error: command_of adds the
// usage, once for all commands. `?` passes no None on through a Result, hence let-else. The words are no list: a line may have
// millions of them, and a list of those would take more than the table that they say.)
fn command_with<'a>(
    heap: Global,
    name: &str,
    mut words: SplitWhitespace<'a>,
) -> Result<Option<Command>, LineError<'a>> {
    let command = match name {
        "tables" => lengths_of(heap, words)?.map(Command::Tables),
        "nodes" => Some(Command::Nodes(all_of(heap, words)?)),
        "types" => Some(Command::Types(all_of(heap, words)?)),
        "listing" => listing_of(heap, words)?,
        "sheet" => sheet_of(heap, words)?,
        _ => command_of_few(heap, name, [words.next(), words.next(), words.next()])?,
    };
    Ok(command)
}

// The same of a command that takes two words at most: its first three, as far as there are so many.
fn command_of_few<'a>(
    heap: Global,
    name: &str,
    words: [Option<&'a str>; 3],
) -> Result<Option<Command>, LineError<'a>> {
    let command = match (name, words) {
        ("file", [None, ..]) => Some(Command::File(Vec::new(heap))),
        ("file", [Some(digits), None, ..]) => bytes_of(heap, digits)?.map(Command::File),
        ("load", [None, ..]) => Some(Command::Load),
        ("entry", [Some(place), Some(word), None]) => entry_of(place, word)?,
        ("count", [Some(number), None, ..]) => decimal(number).map(Command::Count),
        ("write", [None, ..]) => Some(Command::Write),
        ("dump", [Some(name), None, ..]) => table_of(name).map(Command::Dump),
        ("profile", [None, ..]) => Some(Command::Profile),
        ("ask", [Some(question), Some(number), None]) => ask_of(question, number),
        _ => None,
    };
    Ok(command)
}

// What every word says. A chain ended by try_collect was tried: the borrow checker does not cover it over lent words.
fn all_of<'a, T: Worded + Drop>(
    heap: Global,
    words: SplitWhitespace<'a>,
) -> Result<Vec<T>, LineError<'a>> {
    let mut all = Vec::new(heap);
    for word in words {
        all.push(read_word(word)?)?;
    }
    Ok(all)
}

fn read_word<'a, T: Worded>(word: &'a str) -> Result<T, LineError<'a>> {
    T::of_word(word).map_err(|error| LineError::Word { word, error })
}

fn lengths_of<'a>(
    heap: Global,
    words: SplitWhitespace<'a>,
) -> Result<Option<Lengths>, LineError<'a>> {
    let lengths: Vec<Length> = all_of(heap, words)?;
    let [nodes, types, scratch, bytes] = lengths.as_slice() else {
        return Ok(None);
    };
    Ok(Some(Lengths {
        nodes: nodes.0,
        types: types.0,
        scratch: scratch.0,
        bytes: bytes.0,
    }))
}

fn entry_of<'a>(place: &str, word: &'a str) -> Result<Option<Command>, LineError<'a>> {
    let Some(place) = decimal(place) else {
        return Ok(None);
    };
    let entry = read_word(word)?;
    Ok(Some(Command::Entry { place, entry }))
}

fn table_of(name: &str) -> Option<Table> {
    match name {
        "nodes" => Some(Table::Nodes),
        "types" => Some(Table::Types),
        "scratch" => Some(Table::Scratch),
        "bytes" => Some(Table::Bytes),
        _ => None,
    }
}

fn listing_of<'a>(
    heap: Global,
    mut words: SplitWhitespace<'a>,
) -> Result<Option<Command>, LineError<'a>> {
    let Some(word) = words.next() else {
        return Ok(None);
    };
    let today = small_number(word).map_err(|error| LineError::Word { word, error })?;
    let versions = all_of(heap, words)?;
    Ok(Some(Command::Listing { today, versions }))
}

fn sheet_of<'a>(
    heap: Global,
    mut words: SplitWhitespace<'a>,
) -> Result<Option<Command>, LineError<'a>> {
    let Some(profile) = words.next().and_then(profile_of) else {
        return Ok(None);
    };
    let lines = all_of(heap, words)?;
    Ok(Some(Command::Sheet { profile, lines }))
}

fn ask_of(question: &str, number: &str) -> Option<Command> {
    Some(Command::Ask {
        question: small_number(question).ok()?,
        number: small_number(number).ok()?,
    })
}
