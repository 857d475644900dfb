// Texts that are read word by word, and messages about a word of one.
use crate::failure::Failure;
use std::alloc::Global;
use std::{fmt, iter};

// A text and its name, for messages.
#[derive(Clone, Copy)]
pub struct Text<'a> {
    pub name: &'a str,
    pub text: &'a str,
}

// Where a word stands: its line, and its place among the words of the line, each from 0.
#[derive(Clone, Copy)]
pub struct Position {
    pub line: usize,
    pub word: usize,
}

// The line up to its comment, which begins with `#`.
pub fn without_comment(line: &str) -> &str {
    line.split_once('#').map_or(line, |(words, _)| words)
}

// The message about a word: the text's name, the word's line and column from 1, the word, and why.
pub fn at_word(
    heap: Global,
    text: Text<'_>,
    position: Position,
    why: impl fmt::Display + Drop,
) -> Failure {
    let Text { name, text } = text;
    let line = text.lines().nth(position.line).unwrap_or("");
    let column = column_of(line, position.word);
    let word = without_comment(line)
        .split_whitespace()
        .nth(position.word)
        .unwrap_or("");
    let number = position.line.saturating_add(1);
    Failure::told(format!(in heap; "{name}:{number}:{column}: {word}: {why}"))
}

// The column, in characters from 1, at which a word of the line begins.
fn column_of(line: &str, word: usize) -> usize {
    let spaces = line.chars().map(|c| c.is_whitespace());
    iter::once(true)
        .chain(spaces)
        .zip(line.chars())
        .enumerate()
        .filter(|(_, (after_space, c))| *after_space && !c.is_whitespace())
        .nth(word)
        .map_or(1, |(i, _)| i.saturating_add(1))
}
