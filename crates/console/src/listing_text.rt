// The text form of a listing: a line for each version, `published withdrawn line patch`, with `#` before a comment.
use crate::failure::Failure;
use crate::host_words::{AnswerWords, version_of};
use crate::messages::RefusalLine;
use crate::text::{Position, Text, at_word, without_comment};
use crate::words::{WordError, small_number};
use hosts::host::Host;
use hosts::listing::Listing;
use hosts::version::Version;
use std::alloc::Global;
use std::array;

// Why a line is not taken: a word of it that cannot be read, or that is too many or the last of too few.
#[derive(Clone, Copy)]
struct LineFault {
    word: usize,
    error: WordError,
}

// The versions that a text says, or a message about the first word at fault.
pub fn versions_of(heap: Global, text: Text<'_>) -> Result<Vec<Version>, Failure> {
    let mut versions = Vec::new(heap);
    for (line, words) in text.text.lines().enumerate() {
        let version = version_in(words).map_err(|fault| {
            let LineFault { word, error } = fault;
            at_word(heap, text, Position { line, word }, error)
        })?;
        if let Some(version) = version {
            versions.push(version)?;
        }
    }
    Ok(versions)
}

// The version that a line says, if it says one. (A blank line is none and no fault, so `?` would not do.)
fn version_in(line: &str) -> Result<Option<Version>, LineFault> {
    let Some(numbers) = numbers_in(line)? else {
        return Ok(None);
    };
    let word = if numbers[2] > 255 { 2 } else { 3 };
    let version = version_of(numbers).map_err(|error| LineFault { word, error })?;
    Ok(Some(version))
}

// The four numbers of a line, or none where it is blank. (Not four_numbers: here the fault's word is told.)
fn numbers_in(line: &str) -> Result<Option<[u16; 4]>, LineFault> {
    let line = without_comment(line);
    let Some(last) = line.split_whitespace().count().checked_sub(1) else {
        return Ok(None);
    };
    let error = WordError::Version;
    let mut words = (0usize..).zip(line.split_whitespace());
    let numbers = array::try_from_fn(|_| {
        let (word, digits) = words.next().ok_or(LineFault { word: last, error })?;
        small_number(digits).map_err(|error| LineFault { word, error })
    })?;
    match words.next() {
        Some((word, _)) => Err(LineFault { word, error }),
        None => Ok(Some(numbers)),
    }
}

// The host's count and profile, and a line for each version: its place, its age, whether it is withdrawn, its line and patch.
pub fn listing_table(
    heap: Global,
    name: &str,
    versions: &[Version],
    today: u16,
) -> Result<String, Failure> {
    let mut host = Listing::empty();
    host.make(versions, today).map_err(|refusal| {
        Failure::told(format!(in heap; "{name}: {}", RefusalLine(refusal)))
    })?;
    let profile = host.profile();
    let count = AnswerWords(host.query(0, 0));
    let mut text = format!(in heap; "profile {profile:08x}\ncount: {count}\n")?;
    // (as: the host has taken the versions, so they are at most 200, and try_from would add an error that never comes)
    for number in 0..versions.len() as u16 {
        add_version(&mut text, &mut host, number)?;
    }
    Ok(text)
}

fn add_version<H: Host>(text: &mut String, host: &mut H, number: u16) -> Result<(), Failure> {
    let age = AnswerWords(host.query(1, number));
    let withdrawn = AnswerWords(host.query(2, number));
    let name = AnswerWords(host.query(3, number));
    writeln!(
        text,
        "version {number}: age {age}, withdrawn {withdrawn}, line and patch {name}"
    )?;
    Ok(())
}
