// The kinds of nodes, with their numbers, their marks in a file and how many children each has.
ghost use Rattle.std.specs.Prelude.{◌≡◌, [], ◌∷◌};
ghost use Rattle.calculus.specs.Kinds.{kind_number, kind_mark, kind_of_mark, arity, MarksAgree};
ghost use Rattle.calculus.specs.Marks.{Decodes};

use crate::mark::UnknownMark;

// `Blank` is the kind of an unused place in a node table; a term has none.
#[derive(Clone, Copy, PartialEq, Eq, Debug)]
pub enum Kind {
    Blank,
    Variable,
    Zero,
    Successor,
    Rec,
    Lambda,
    Apply,
    Triv,
    Pair,
    Fst,
    Snd,
    Abort,
    Inl,
    Inr,
    Case,
    Query,
}

impl Kind {
    // The kind's number: 0 for a blank, and 1 to 15. (A From for u8 would say no more, and hide that it is the number.)
    pub fn number(self) -> u8
        ensures { result ≡ kind_number self }
    {
        self as u8
    }

    // The two letters that stand for the kind in a file; a blank has two hyphens, which no file has. (A From for two bytes would
    // say no more, and hide that they are the mark.)
    pub fn mark(self) -> [u8; 2]
        ensures { result ≡ kind_mark self }
    {
        match self {
            Kind::Blank => *b"--",
            Kind::Variable => *b"VA",
            Kind::Zero => *b"ZE",
            Kind::Successor => *b"SU",
            Kind::Rec => *b"RE",
            Kind::Lambda => *b"LA",
            Kind::Apply => *b"AP",
            Kind::Triv => *b"TR",
            Kind::Pair => *b"PA",
            Kind::Fst => *b"FS",
            Kind::Snd => *b"SN",
            Kind::Abort => *b"AB",
            Kind::Inl => *b"IL",
            Kind::Inr => *b"IR",
            Kind::Case => *b"CA",
            Kind::Query => *b"QU",
        }
    }

    // The kind with this mark, or a blank where no kind has it. (The reading of a record cannot fail, so it answers a blank;
    // try_from answers an error.)
    pub fn of_mark(a: u8, b: u8) -> Kind
        ensures value { result ≡ kind_of_mark a b }
        ensures agrees { MarksAgree a b result }
    {
        match (a, b) {
            (b'V', b'A') => Kind::Variable,
            (b'Z', b'E') => Kind::Zero,
            (b'S', b'U') => Kind::Successor,
            (b'R', b'E') => Kind::Rec,
            (b'L', b'A') => Kind::Lambda,
            (b'A', b'P') => Kind::Apply,
            (b'T', b'R') => Kind::Triv,
            (b'P', b'A') => Kind::Pair,
            (b'F', b'S') => Kind::Fst,
            (b'S', b'N') => Kind::Snd,
            (b'A', b'B') => Kind::Abort,
            (b'I', b'L') => Kind::Inl,
            (b'I', b'R') => Kind::Inr,
            (b'C', b'A') => Kind::Case,
            (b'Q', b'U') => Kind::Query,
            _ => Kind::Blank,
        }
    }

    // How many children a node of this kind has.
    pub fn children(self) -> usize
        ensures { result ≡ arity self }
    {
        match self {
            Kind::Blank | Kind::Variable | Kind::Zero | Kind::Triv => 0,
            Kind::Successor | Kind::Lambda | Kind::Fst | Kind::Snd => 1,
            Kind::Abort | Kind::Inl | Kind::Inr | Kind::Query => 1,
            Kind::Apply | Kind::Pair => 2,
            Kind::Rec | Kind::Case => 3,
        }
    }
}

// The kind with a mark; two hyphens are a blank's.
impl TryFrom<[u8; 2]> for Kind {
    type Error = UnknownMark;

    ghost try_from_gives = { Decodes kind_mark };

    fn try_from(mark: [u8; 2]) -> Result<Kind, UnknownMark> {
        let [a, b] = mark;
        match Kind::of_mark(a, b) {
            Kind::Blank if mark != *b"--" => Err(UnknownMark(mark)),
            kind => Ok(kind),
        }
    }
}
