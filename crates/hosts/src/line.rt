// A line of a sheet: the answer to a question at a number; which lines are legal, and what they answer.
ghost use Rattle.std.specs.Prelude.{◌≡◌};
ghost use Rattle.calculus.specs.Meanings.{digit_shape, question_shape};
ghost use Rattle.hosts.specs.Lines.{question_digit, line_has, shape_legal, legal, legal_line, shape_answer, answer_in};
ghost use Rattle.hosts.specs.Sheets.{asked_of};

use crate::host::{LARGEST_ASKED, LARGEST_NUMBER};
use calculus::answer::{Answer, Shape};
use types::keyed::Keyed;

// A number or a flag is a, with b 0; a flag is 0 or 1. A maybe is a 0 with b 0, or a 1 and b the number. A pair is a and b.
// Callers write a line as these four numbers.
#[derive(Clone, Copy, PartialEq, Eq, Debug)]
pub struct Line {
    pub question: u16,
    pub number: u16,
    pub a: u16,
    pub b: u16,
}

// What a line is for: a question at a number.
#[derive(Clone, Copy, PartialEq, Eq, Debug)]
pub struct Asked {
    pub question: u16,
    pub number: u16,
}

impl From<&Line> for Asked {
    ghost from_gives = { λ line asked. asked ≡ asked_of line.now };

    fn from(line: &Line) -> Asked {
        Asked {
            question: line.question,
            number: line.number,
        }
    }
}

impl Keyed<Asked> for Line {
    ghost keyed = { line_has };

    fn has_key(&self, key: &Asked) -> bool {
        Asked::from(self) == *key
    }
}

// The digit of a question in a profile, or 0 for a question above 7. (A number: a profile is lent as eight digits, also one
// that no sheet may have; shape_of has the shape.)
pub fn digit_of(profile: u32, question: u16) -> u32
    ensures value { result ≡ question_digit profile question }
{
    if question < 8 {
        profile >> (4 * question) & 15
    } else {
        0
    }
}

// The shape that a digit stands for, or none where it stands for none.
pub fn shape_of_digit(digit: u32) -> Option<Shape>
    ensures value { result ≡ digit_shape digit }
{
    match digit {
        1 => Some(Shape::Number),
        2 => Some(Shape::Flag),
        3 => Some(Shape::Maybe),
        4 => Some(Shape::Pair),
        _ => None,
    }
}

// The shape of a question's answers under a profile, or none where the profile has no such question.
pub fn shape_of(profile: u32, question: u16) -> Option<Shape>
    ensures value { result ≡ question_shape profile question }
{
    shape_of_digit(digit_of(profile, question))
}

// The answer that a and b are in a shape. (They stay two numbers, as a line has them.)
pub fn answer_in_shape(shape: Shape, a: u16, b: u16) -> Answer
    ensures value { result ≡ shape_answer shape a b }
{
    match shape {
        Shape::Number => Answer::Number(a),
        Shape::Flag => Answer::Flag(a == 1),
        Shape::Maybe => Answer::Maybe((a != 0).then_some(b)),
        Shape::Pair => Answer::Pair(a, b),
    }
}

// The answer of a and b in the shape that a digit stands for, or none where it stands for none. (For callers that have a
// digit; answer_in_shape has the shape.)
pub fn answer_of(digit: u32, a: u16, b: u16) -> Option<Answer>
    ensures value { result ≡ answer_in (digit_shape digit) a b }
{
    let shape = shape_of_digit(digit)?;
    Some(answer_in_shape(shape, a, b))
}

// Whether a and b are an answer in a shape.
pub fn fits_shape(shape: Shape, a: u16, b: u16) -> bool
    ensures value { result ≡ shape_legal shape a b }
{
    match shape {
        Shape::Number => a <= LARGEST_NUMBER && b == 0,
        Shape::Flag => a <= 1 && b == 0,
        Shape::Maybe if a == 0 => b == 0,
        Shape::Maybe => a == 1 && b <= LARGEST_NUMBER,
        Shape::Pair => a <= LARGEST_NUMBER && b <= LARGEST_NUMBER,
    }
}

// Whether a and b are an answer in the shape that a digit stands for. (For callers that have a digit; fits_shape has the
// shape.)
pub fn is_legal(digit: u32, a: u16, b: u16) -> bool
    ensures value { result ≡ legal (digit_shape digit) a b }
{
    shape_of_digit(digit).is_some_and(|shape| fits_shape(shape, a, b))
}

// Question 43: whether a line is legal by a profile.
pub fn is_legal_line(profile: u32, line: &Line) -> bool
    ensures value { result ≡ legal_line profile line.now }
{
    let shape = shape_of(profile, line.question);
    line.number <= LARGEST_ASKED && shape.is_some_and(|shape| fits_shape(shape, line.a, line.b))
}
