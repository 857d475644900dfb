// Reads records from a text.
ghost use Rattle.std.specs.Prelude.{◌≡◌, [], IfOk, IsOkAnd, take};

use crate::record::Record;
use calculus::mark::UnknownMark;
use std::alloc::{AllocError, Global};
use std::iter;
use std::num::ParseIntError;
use std::str::FromStr;
use thiserror::Error;

// Why a text has no records, or its records are no nodes or no entries.
#[derive(Debug, Drop, Error)]
pub enum TextError {
    #[error("a word begins with a mark of two letters")]
    NoMark,
    #[error(transparent)]
    Number(#[from] ParseIntError),
    #[error(transparent)]
    Mark(#[from] UnknownMark),
    #[error(transparent)]
    Memory(#[from(alloc)] AllocError),
}

// Which number of a record is greater by 1 than that of the record before, in a run of records. (An enum and no closure: each
// program has one way.)
#[derive(Clone, Copy, PartialEq, Eq, Debug)]
pub enum Rising {
    First,
    Second,
}

impl Record {
    // The record after it in a run.
    fn after(self, rising: Rising) -> Record {
        match rising {
            Rising::First => Record {
                first: self.first.wrapping_add(1),
                ..self
            },
            Rising::Second => Record {
                second: self.second.wrapping_add(1),
                ..self
            },
        }
    }
}

// A number, or 0 where none is written.
fn number(text: &str) -> Result<u16, ParseIntError> {
    if text.is_empty() {
        Ok(0)
    } else {
        text.parse::<u16>()
    }
}

// The record of a word `MARK`, `MARK7` or `MARK7/7`; a number that is not written is 0.
impl FromStr for Record {
    type Err = TextError;

    ghost from_str_gives = { λ word result. IfOk result (λ r. r.mark ≡ take 2 word) };

    fn from_str(word: &str) -> Result<Record, TextError> {
        let (_, numbers) = word.split_at_checked(2).ok_or(TextError::NoMark)?;
        let mark = word.as_bytes().first_chunk::<2>().ok_or(TextError::NoMark)?;
        let (first, second) = numbers.split_once('/').unwrap_or((numbers, ""));
        Ok(Record {
            mark: *mark,
            first: number(first)?,
            second: number(second)?,
        })
    }
}

// The records of words with commas between them.
fn words_of(heap: Global, text: &str) -> Result<Vec<Record>, TextError> {
    text.split(',')
        .map(|word| word.parse::<Record>())
        .try_collect(heap)
}

// So many records, of which this is the first.
fn run_of(
    heap: Global,
    first: Record,
    count: u16,
    rising: Rising,
) -> Result<Vec<Record>, AllocError> {
    iter::successors(Some(first), |record| Some(record.after(rising)))
        .take(usize::from(count))
        .collect(heap)
}

// The records of a part of a text.
fn part_of(heap: Global, part: &str, rising: Rising) -> Result<Vec<Record>, TextError> {
    if part == "given" {
        return words_of(heap, "TN,TU,TV,TS1/1,TS1/0,TP");
    }
    if let Some((words, times)) = part.split_once('*') {
        let words = words_of(heap, words)?;
        return Ok(words.repeat(heap, usize::from(number(times)?))?);
    }
    if let Some((word, count)) = part.split_once('+') {
        return Ok(run_of(heap, word.parse::<Record>()?, number(count)?, rising)?);
    }
    words_of(heap, part)
}

// The records of a text: `ZE` is one, `ZE*3` is `ZE ZE ZE`, `AP,ZE*2` is `AP ZE AP ZE`, `TF0/5+3` is a run of three, and
// `given` is the six entries with which every type table begins.
pub fn records(heap: Global, text: &str, rising: Rising) -> Result<Vec<Record>, TextError>
    ensures { text.now ≡ [] → IsOkAnd result (λ v. v.items ≡ []) }
{
    let mut all = Vec::new(heap);
    for part in text.split_whitespace() {
        all.extend_from_slice(&part_of(heap, part, rising)?)?;
    }
    Ok(all)
}
