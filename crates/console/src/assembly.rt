// The text form of a rule: words of types and then of nodes, with `#` before a comment.
use crate::failure::Failure;
use crate::messages::RefusalLine;
use crate::rule::Rule;
use crate::text::{Position, Text, at_word, without_comment};
use crate::words::{WordError, Worded, is_type_word};
use calculus::entry::Entry;
use calculus::node::Node;
use refusals::{Question, Refusal};
use std::alloc::{AllocError, AllocFailed, Global};
use std::fmt;
use types::table::GIVEN;

// Why a word is not taken.
#[derive(Clone, Copy)]
enum TextError {
    Memory,
    Order,
    Word(WordError),
}

impl From<AllocError> for TextError {
    fn from(_e: AllocError) -> TextError {
        TextError::Memory
    }
}

impl<T: Drop> From<AllocFailed<T>> for TextError {
    fn from(_e: AllocFailed<T>) -> TextError {
        TextError::Memory
    }
}

impl From<WordError> for TextError {
    fn from(error: WordError) -> TextError {
        TextError::Word(error)
    }
}

impl fmt::Display for TextError {
    fn fmt<W: fmt::Write>(&self, f: &mut fmt::Formatter<W>) -> fmt::Result {
        match self {
            TextError::Memory => f.write_str("out of memory"),
            TextError::Order => f.write_str("the types must stand before the nodes"),
            TextError::Word(error) => write!(f, "{error}"),
        }
    }
}

// The file that a text says.
pub fn assemble(heap: Global, text: Text<'_>) -> Result<Vec<u8>, Failure> {
    let rule = read(heap, text)?;
    rule.to_file(heap)?
        .map_err(|refusal| refused(heap, text, &rule, refusal))
}

fn read(heap: Global, text: Text<'_>) -> Result<Rule, Failure> {
    let nodes = Vec::new(heap);
    let types = Vec::from_slice(heap, &GIVEN)?;
    let mut rule = Rule { nodes, types };
    for (line, words) in text.text.lines().enumerate() {
        for (word, letters) in without_comment(words).split_whitespace().enumerate() {
            let position = Position { line, word };
            add_word(&mut rule, letters).map_err(|error| at_word(heap, text, position, error))?;
        }
    }
    Ok(rule)
}

fn add_word(rule: &mut Rule, word: &str) -> Result<(), TextError> {
    if !is_type_word(word) {
        rule.nodes.push(Node::of_word(word)?)?;
        return Ok(());
    }
    if !rule.nodes.is_empty() {
        return Err(TextError::Order);
    }
    rule.types.push(Entry::of_word(word)?)?;
    Ok(())
}

// Where the word stands that a refusal is about, if it is about one: the types' words come first, and then the nodes'.
fn position_of(text: &str, rule: &Rule, question: Question) -> Option<Position> {
    let own_types = rule.types.len().saturating_sub(GIVEN.len());
    let index = match question {
        Question::EntryLaid { place } => usize::from(place).checked_sub(GIVEN.len())?,
        Question::OneTerm { place } => own_types.checked_add(usize::from(place))?,
        _ => return None,
    };
    text.lines()
        .enumerate()
        .flat_map(|(line, words)| {
            let count = without_comment(words).split_whitespace().count();
            (0..count).map(move |word| Position { line, word })
        })
        .nth(index)
}

// The message about a refusal, at the word that it is about, or at the end of the text.
fn refused(heap: Global, text: Text<'_>, rule: &Rule, refusal: Refusal) -> Failure {
    let line = RefusalLine(refusal);
    if let Some(position) = position_of(text.text, rule, refusal.question) {
        return at_word(heap, text, position, line);
    }
    let (name, types, nodes) = (text.name, rule.types.len(), rule.nodes.len());
    Failure::told(format!(in heap;
        "{name}: at the end, after {types} types, the given six among them, and {nodes} nodes: {line}"
    ))
}
