// Why a call refuses: the question that was answered no, and the layer of the call that put it.
#![tactic(auto)]

ghost use Rattle.std.specs.Prelude.{◌≡◌};
ghost use Rattle.refusals.specs.Refusals.{layer_number_lem, question_numbers, report_of};

// A layer of the product, with its number. The same question has another layer in another call.
#[derive(Clone, Copy, PartialEq, Eq, Debug)]
pub enum Layer {
    // load and write
    File = 1,
    // check
    Check = 2,
    // run, look and close
    Run = 3,
    // making hosts
    Host = 4,
}

impl Layer {
    // The refusal of a question by a call of this layer.
    pub fn refuse(self, question: Question) -> Refusal
        ensures value { result ≡ record { layer = self; question = question } }
    {
        Refusal {
            layer: self,
            question,
        }
    }

    // The layer's number: 1 to 4. (A report says it, so it has a name of its own.)
    fn number(self) -> u8
        ensures value { result ≡ layer_number_lem self }
    {
        self as u8
    }
}

// A question that a call puts, in the order of their numbers. A case holds its place where it has one: places count
// from 0, records in a file, entries in a type table, nodes in a term, digits in a profile, lines in a sheet. A question
// about a child of the node there has that child's number too, from 1; where only one child is in question, its number is
// not held.
#[derive(Clone, Copy, PartialEq, Eq, Debug)]
pub enum Question {
    // 1: is the file's length a positive multiple of 6?
    FileLength,
    // 2: is the head RU with at most 1,024 type records and 1 to 4,096 nodes?
    FileHead,
    // 3: is the file as long as its head says?
    FileRecords,
    // 4: are the tables long enough?
    TableRoom,
    // 5: is the one term still unended at this record?
    TermUnended { place: u16 },
    // 6: is the record's mark one of its section?
    SectionMark { place: u16 },
    // 7: are the record's numbers in range?
    NumberRange { place: u16 },
    // 8: is the type record's type new?
    TypeNew { place: u16 },
    // 9: is the term ended after the last record?
    TermEnded { place: u16 },
    // 10: are there 1 to 4,096 nodes, and is the count from 6 to 1,030 and within the table?
    Counts,
    // 11: is the type table at least as long as count and nodes together, and the scratch list four times the nodes?
    CheckRoom,
    // 12: is each entry below the count as a type table lays it down?
    EntryLaid { place: u16 },
    // 13: are the nodes exactly one term, with numbers in range?
    OneTerm { place: u16 },
    // 14: is the byte list long enough?
    ByteRoom,
    // 20: is the variable's index below the number of binders around it?
    IndexBound { place: u16 },
    // 21: does the host have the query's question?
    QuestionKnown { place: u16 },
    // 22: is the node's first child of a type that the node can take?
    FirstChild { place: u16 },
    // 23: does this later child of the node agree with those before it?
    LaterChild { place: u16, child: u8 },
    // 24: is the recursion's third child a function as it stands?
    StepFunction { place: u16 },
    // 30: does the run hold a term, and have the tables the recorded length?
    TermHeld,
    // 31: is the fuel at most 1,000,000 less the steps made in all?
    FuelLeft,
    // 32: is the host's profile the accepted one?
    ProfileAccepted,
    // 33: are the table's first records one closed term?
    ClosedTerm { place: u16 },
    // 34: is the held term a value?
    ValueHeld,
    // 40: has the listing at most 200 versions?
    VersionRoom,
    // 41: has the sheet at most 1,024 lines?
    LineRoom,
    // 42: is each digit of the profile at most 4?
    ProfileDigit { place: u16 },
    // 43: is the line's question there, its number at most 4,095 and its answer legal?
    LineLegal { place: u16 },
    // 44: is no earlier line for the same question and number?
    LineNew { place: u16 },
}

// A refusal: nothing else ends a call without its result.
#[derive(Clone, Copy, PartialEq, Eq, Debug)]
pub struct Refusal {
    pub layer: Layer,
    pub question: Question,
}

// What a refusal says in numbers. Place and child are 0 where there is none. (Numbers alone, since that is what a report says.)
#[derive(Clone, Copy, PartialEq, Eq, Debug)]
pub struct Report {
    pub layer: u8,
    pub number: u8,
    pub place: u16,
    pub child: u8,
}

impl Refusal {
    pub fn report(&self) -> Report
        ensures { result ≡ report_of self.now }
    {
        let (number, place, child) = numbers(self.question);
        Report {
            layer: self.layer.number(),
            number,
            place,
            child,
        }
    }
}

// The question's number, its place and its child.
fn numbers(question: Question) -> (u8, u16, u8)
    ensures { result ≡ question_numbers question }
{
    match question {
        Question::FileLength => (1, 0, 0),
        Question::FileHead => (2, 0, 0),
        Question::FileRecords => (3, 0, 0),
        Question::TableRoom => (4, 0, 0),
        Question::TermUnended { place } => (5, place, 0),
        Question::SectionMark { place } => (6, place, 0),
        Question::NumberRange { place } => (7, place, 0),
        Question::TypeNew { place } => (8, place, 0),
        Question::TermEnded { place } => (9, place, 0),
        Question::Counts => (10, 0, 0),
        Question::CheckRoom => (11, 0, 0),
        Question::EntryLaid { place } => (12, place, 0),
        Question::OneTerm { place } => (13, place, 0),
        Question::ByteRoom => (14, 0, 0),
        Question::IndexBound { place } => (20, place, 0),
        Question::QuestionKnown { place } => (21, place, 0),
        Question::FirstChild { place } => (22, place, 1),
        Question::LaterChild { place, child } => (23, place, child),
        Question::StepFunction { place } => (24, place, 3),
        Question::TermHeld => (30, 0, 0),
        Question::FuelLeft => (31, 0, 0),
        Question::ProfileAccepted => (32, 0, 0),
        Question::ClosedTerm { place } => (33, place, 0),
        Question::ValueHeld => (34, 0, 0),
        Question::VersionRoom => (40, 0, 0),
        Question::LineRoom => (41, 0, 0),
        Question::ProfileDigit { place } => (42, place, 0),
        Question::LineLegal { place } => (43, place, 0),
        Question::LineNew { place } => (44, place, 0),
    }
}
