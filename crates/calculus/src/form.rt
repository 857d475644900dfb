// The forms of types, with their numbers and their marks in a file.
ghost use Rattle.std.specs.Prelude.{◌≡◌};
ghost use Rattle.calculus.specs.Forms.{form_number, form_mark, form_of_mark, FormMarksAgree};
ghost use Rattle.calculus.specs.Marks.{Decodes};

use crate::mark::UnknownMark;

// `Blank` is the form of an unused place in a type table.
#[derive(Clone, Copy, PartialEq, Eq, Debug)]
pub enum Form {
    Blank,
    Nat,
    Unit,
    Void,
    Function,
    Product,
    Sum,
}

impl Form {
    // The form's number: 0 for a blank, and 1 to 6. (A From for u8 would say no more, and hide that it is the number.)
    pub fn number(self) -> u8
        ensures { result ≡ form_number self }
    {
        self as u8
    }

    // The two letters that stand for the form. A file has only those of the three forms that join two types. (A From for two
    // bytes would say no more, and hide that they are the mark.)
    pub fn mark(self) -> [u8; 2]
        ensures { result ≡ form_mark self }
    {
        match self {
            Form::Blank => *b"--",
            Form::Nat => *b"TN",
            Form::Unit => *b"TU",
            Form::Void => *b"TV",
            Form::Function => *b"TF",
            Form::Product => *b"TP",
            Form::Sum => *b"TS",
        }
    }

    // The form that joins two types and has this mark, or a blank where there is none. (The reading of a record cannot
    // fail, so it answers a blank; try_from answers an error.)
    pub fn of_mark(a: u8, b: u8) -> Form
        ensures value { result ≡ form_of_mark a b }
        ensures agrees { FormMarksAgree a b result }
    {
        match (a, b) {
            (b'T', b'F') => Form::Function,
            (b'T', b'P') => Form::Product,
            (b'T', b'S') => Form::Sum,
            _ => Form::Blank,
        }
    }
}

// The form with a mark, also of those that no file has; two hyphens are a blank's.
impl TryFrom<[u8; 2]> for Form {
    type Error = UnknownMark;

    ghost try_from_gives = { Decodes form_mark };

    fn try_from(mark: [u8; 2]) -> Result<Form, UnknownMark> {
        let [a, b] = mark;
        match (a, b) {
            (b'-', b'-') => Ok(Form::Blank),
            (b'T', b'N') => Ok(Form::Nat),
            (b'T', b'U') => Ok(Form::Unit),
            (b'T', b'V') => Ok(Form::Void),
            _ => match Form::of_mark(a, b) {
                Form::Blank => Err(UnknownMark(mark)),
                form => Ok(form),
            },
        }
    }
}
