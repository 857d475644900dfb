// The words of hosts: versions of a listing, lines of a sheet, profiles and answers.
use crate::words::{WordError, Worded, small_number};
use calculus::answer::Answer;
use hosts::line::Line;
use hosts::version::Version;
use std::{array, fmt};

// The four numbers of a word such as 1/2/3/4; the error is for a word with fewer, more or others.
fn four_numbers(word: &str, error: WordError) -> Result<[u16; 4], WordError> {
    let mut parts = word.split('/');
    let numbers = array::try_from_fn(|_| {
        parts
            .next()
            .and_then(|part| small_number(part).ok())
            .ok_or(error)
    })?;
    match parts.next() {
        Some(_) => Err(error),
        None => Ok(numbers),
    }
}

// A version as the script writes it: PUBLISHED/WITHDRAWN/LINE/PATCH.
impl Worded for Version {
    fn of_word(word: &str) -> Result<Version, WordError> {
        version_of(four_numbers(word, WordError::Version)?)
    }
}

// The version of four numbers, of which line and patch have 8 bits. (TryFrom could be written in the versions' own crate alone,
// with an error that would be mapped to this one: no plainer.)
pub fn version_of(numbers: [u16; 4]) -> Result<Version, WordError> {
    let [published, withdrawn, line, patch] = numbers;
    Ok(Version {
        published,
        withdrawn,
        line: u8::try_from(line).map_err(|_| WordError::Version)?,
        patch: u8::try_from(patch).map_err(|_| WordError::Version)?,
    })
}

// A line of a sheet as the script writes it: QUESTION/NUMBER/A/B.
impl Worded for Line {
    fn of_word(word: &str) -> Result<Line, WordError> {
        let [question, number, a, b] = four_numbers(word, WordError::Line)?;
        Ok(Line {
            question,
            number,
            a,
            b,
        })
    }
}

// The profile that eight hexadecimal digits say.
pub fn profile_of(word: &str) -> Option<u32> {
    if word.len() != 8 || word.starts_with('+') {
        return None;
    }
    u32::from_str_radix(word, 16).ok()
}

// A host's answer as words; none is a missing answer.
#[derive(Clone, Copy)]
pub struct AnswerWords(pub Option<Answer>);

impl fmt::Display for AnswerWords {
    fn fmt<W: fmt::Write>(&self, f: &mut fmt::Formatter<W>) -> fmt::Result {
        match self.0 {
            None => f.write_str("missing"),
            Some(Answer::Number(n)) => write!(f, "number {n}"),
            Some(Answer::Flag(true)) => f.write_str("flag yes"),
            Some(Answer::Flag(false)) => f.write_str("flag no"),
            Some(Answer::Maybe(None)) => f.write_str("maybe none"),
            Some(Answer::Maybe(Some(n))) => write!(f, "maybe {n}"),
            Some(Answer::Pair(m, n)) => write!(f, "pair {m} {n}"),
        }
    }
}
