// The words of nodes and of types: a mark of two letters, and numbers where there are any.
use calculus::entry::Entry;
use calculus::form::Form;
use calculus::kind::Kind;
use calculus::mark::UnknownMark;
use calculus::node::Node;
use std::error::Error;
use std::fmt;

// Why a word cannot be read.
#[derive(Clone, Copy, PartialEq, Eq, Debug)]
pub enum WordError {
    Mark,
    NumberMissing,
    NumbersMissing,
    Number,
    Length,
    Version,
    Line,
}

impl fmt::Display for WordError {
    fn fmt<W: fmt::Write>(&self, f: &mut fmt::Formatter<W>) -> fmt::Result {
        f.write_str(match *self {
            WordError::Mark =>
                "a node begins with VA ZE SU RE LA AP TR PA FS SN AB IL IR CA QU, a type with TN TU TV TF TP TS, a blank with --",
            WordError::NumberMissing => "a number must follow the mark, as in LA0",
            WordError::NumbersMissing => "two type numbers must follow the mark, as in TF0/6",
            WordError::Number => "a number has decimal digits alone, and is at most 65535",
            WordError::Length => "a length has decimal digits alone, and is at most 1000000",
            WordError::Version =>
                "a version has four numbers: published day, withdrawn day (0 for never), line, patch; days are at most 65535, line and patch at most 255",
            WordError::Line => "a line has four numbers, QUESTION/NUMBER/A/B, each at most 65535",
        })
    }
}

impl Error for WordError {}

impl From<UnknownMark> for WordError {
    fn from(_e: UnknownMark) -> WordError {
        WordError::Mark
    }
}

// The number that decimal digits say, and nothing else.
pub fn decimal(digits: &str) -> Option<usize> {
    if digits.starts_with('+') {
        return None;
    }
    digits.parse().ok()
}

pub fn small_number(digits: &str) -> Result<u16, WordError> {
    decimal(digits)
        .and_then(|number| u16::try_from(number).ok())
        .ok_or(WordError::Number)
}

// The mark of a word, and what follows it.
fn split_mark(word: &str) -> Result<([u8; 2], &str), WordError> {
    let (mark, digits) = word.split_at_checked(2).ok_or(WordError::Mark)?;
    let mark = mark.as_bytes().as_array::<2>().ok_or(WordError::Mark)?;
    Ok((*mark, digits))
}

fn form_of(word: &str) -> Result<Form, WordError> {
    let (mark, _) = split_mark(word)?;
    Ok(Form::try_from(mark)?)
}

// Whether the word's mark is one of a type, and not a blank's.
pub fn is_type_word(word: &str) -> bool {
    form_of(word).is_ok_and(|form| form != Form::Blank)
}

// Whether a node of this kind is written with its number also where that is 0.
fn has_number(kind: Kind) -> bool {
    matches!(
        kind,
        Kind::Variable | Kind::Lambda | Kind::Abort | Kind::Inl | Kind::Inr | Kind::Query
    )
}

// Whether a type of this form is written with its two numbers also where both are 0.
fn has_numbers(form: Form) -> bool {
    matches!(form, Form::Function | Form::Product | Form::Sum)
}

// What is written as a word. The words are this program's and the types are those of crates below, in which alone std's
// FromStr and Display could be written for them: hence this trait, and the wrappers that show a node and an entry.
pub trait Worded {
    // The value that a word says.
    fn of_word(word: &str) -> Result<Self, WordError>;
}

impl Worded for Node {
    fn of_word(word: &str) -> Result<Node, WordError> {
        let (mark, digits) = split_mark(word)?;
        let kind = Kind::try_from(mark)?;
        let number = match digits {
            "" if has_number(kind) => return Err(WordError::NumberMissing),
            "" => 0,
            _ => small_number(digits)?,
        };
        Ok(Node { kind, number })
    }
}

impl Worded for Entry {
    fn of_word(word: &str) -> Result<Entry, WordError> {
        let (mark, digits) = split_mark(word)?;
        let form = Form::try_from(mark)?;
        let (left, right) = match digits {
            "" if !has_numbers(form) => (0, 0),
            _ => two_numbers(digits)?,
        };
        Ok(Entry { form, left, right })
    }
}

// The two type numbers of a word such as 0/6.
fn two_numbers(digits: &str) -> Result<(u16, u16), WordError> {
    let (left, right) = digits.split_once('/').ok_or(WordError::NumbersMissing)?;
    Ok((small_number(left)?, small_number(right)?))
}

// The length of a new table.
#[derive(Clone, Copy)]
pub struct Length(pub usize);

impl Worded for Length {
    fn of_word(word: &str) -> Result<Length, WordError> {
        decimal(word)
            .filter(|length| *length <= 1_000_000)
            .map(Length)
            .ok_or(WordError::Length)
    }
}

// A node shown as its word.
#[derive(Clone, Copy)]
pub struct NodeWord(pub Node);

impl fmt::Display for NodeWord {
    fn fmt<W: fmt::Write>(&self, f: &mut fmt::Formatter<W>) -> fmt::Result {
        let Node { kind, number } = self.0;
        write_mark(f, kind.mark())?;
        if number == 0 && !has_number(kind) {
            return Ok(());
        }
        write!(f, "{number}")
    }
}

// An entry shown as its word.
#[derive(Clone, Copy)]
pub struct EntryWord(pub Entry);

impl fmt::Display for EntryWord {
    fn fmt<W: fmt::Write>(&self, f: &mut fmt::Formatter<W>) -> fmt::Result {
        let Entry { form, left, right } = self.0;
        write_mark(f, form.mark())?;
        if left == 0 && right == 0 && !has_numbers(form) {
            return Ok(());
        }
        write!(f, "{left}/{right}")
    }
}

fn write_mark<W: fmt::Write>(f: &mut fmt::Formatter<W>, mark: [u8; 2]) -> fmt::Result {
    let [a, b] = mark;
    f.write_char(char::from(a))?;
    f.write_char(char::from(b))
}
