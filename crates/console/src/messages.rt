// What each question asks, in words: a line for a refusal, and a longer explanation.
ghost use Rattle.std.specs.Prelude.{◌≡◌, IfSome};
ghost use Rattle.refusals.specs.Refusals.{question_numbers};

use refusals::{Question, Refusal, Report};
use std::fmt;

// The question with this number, at place 0 where it has a place. TryFrom could be written in the questions' own crate
// alone, and these are only those that the program's calls put.
pub fn question_numbered(number: usize) -> Option<Question>
    ensures { IfSome result (λ q. (question_numbers q).0 ≡ number) }
{
    match number {
        1 => Some(Question::FileLength),
        2 => Some(Question::FileHead),
        3 => Some(Question::FileRecords),
        4 => Some(Question::TableRoom),
        5 => Some(Question::TermUnended { place: 0 }),
        6 => Some(Question::SectionMark { place: 0 }),
        7 => Some(Question::NumberRange { place: 0 }),
        8 => Some(Question::TypeNew { place: 0 }),
        9 => Some(Question::TermEnded { place: 0 }),
        10 => Some(Question::Counts),
        12 => Some(Question::EntryLaid { place: 0 }),
        13 => Some(Question::OneTerm { place: 0 }),
        14 => Some(Question::ByteRoom),
        40 => Some(Question::VersionRoom),
        41 => Some(Question::LineRoom),
        42 => Some(Question::ProfileDigit { place: 0 }),
        43 => Some(Question::LineLegal { place: 0 }),
        44 => Some(Question::LineNew { place: 0 }),
        _ => None,
    }
}

// What is said of a question.
#[derive(Clone, Copy)]
struct Texts {
    // what must hold for a yes, in one line
    needed: &'static str,
    // what is asked, by which calls and when, what a no says of the input, and what to do then
    details: &'static str,
}

// What must hold for a yes, in one line.
pub fn needed(question: Question) -> &'static str {
    texts_of(question).needed
}

fn texts_of(question: Question) -> Texts {
    match question {
        Question::FileLength => Texts {
            needed: "the file's length must be a positive multiple of 6",
            details: "Is the file's length a positive multiple of 6?\n\
                Asked by load, first of all.\n\
                A no means: The file is empty, or it does not end with a whole record of six bytes.\n\
                What to do: See that this is a rule file and that it was not cut short; assemble makes one from text.",
        },
        Question::FileHead => Texts {
            needed: "the head must be RU with at most 1024 type records and 1 to 4096 nodes",
            details: "Is the head RU with at most 1,024 type records and 1 to 4,096 nodes?\n\
                Asked by load, of the first record.\n\
                A no means: The first two bytes are not RU, or one of the two counts after them is out of bounds.\n\
                What to do: See that this is a rule file; a larger rule has to be cut into smaller ones.",
        },
        Question::FileRecords => Texts {
            needed: "the file must have one record for the head and as many more as the head's two counts say",
            details: "Is the file as long as its head says?\n\
                Asked by load, after the head.\n\
                A no means: With T type records and N nodes in the head, the length is not 6 × (1 + T + N).\n\
                What to do: See that the file was not cut short or joined with another, and that the head has the right counts.",
        },
        Question::TableRoom => Texts {
            needed: "with T type records and N nodes, N nodes and 6 + T + N entries must fit into the tables",
            details: "Are the tables long enough?\n\
                Asked by load, after the file's length.\n\
                A no means: The node table has fewer than N places, or the type table fewer than 6 + T + N.\n\
                What to do: Lend longer tables; 4,096 nodes and 5,126 entries serve every file.",
        },
        Question::TermUnended { .. } => Texts {
            needed: "a node record must belong to the one term, which has ended before this record",
            details: "Is the one term still unended at this node record?\n\
                Asked by load, of each node record; the place is the record, and the head is record 0.\n\
                A no means: Every node before this record has all its children, so this one belongs to no term.\n\
                What to do: Take away the records from here on, or correct a node before it that should have more children.",
        },
        Question::SectionMark { .. } => Texts {
            needed: "a type record must have the mark TF, TP or TS, and a node record one of VA ZE SU RE LA AP TR PA FS SN AB IL IR CA QU",
            details: "Is the record's mark one of its section?\n\
                Asked by load, of each record after the head; the place is the record, and the head is record 0.\n\
                A no means: A type record or a node record begins with two other bytes.\n\
                What to do: Correct the mark, or the counts in the head if the record belongs to the other section.",
        },
        Question::NumberRange { .. } => Texts {
            needed: "type numbers must be below 6 + T, in a type record below its own, indexes below 4096, query numbers below 8, all else 0",
            details: "Are the record's numbers in range?\n\
                Asked by load, of each record after the head; the place is the record, and the head is record 0.\n\
                A no means: A type record names its own type or a later one, a node names no type of the table, an index or a query is too large, or a number that means nothing is not 0.\n\
                What to do: Correct the number; a type has to stand before the types that it is a part of.",
        },
        Question::TypeNew { .. } => Texts {
            needed: "no earlier entry of the type table, given or recorded, may be the same",
            details: "Is the type record's type new?\n\
                Asked by load, of each type record; the place is the record, and the head is record 0.\n\
                A no means: One of the given six entries or an earlier type record is the same type.\n\
                What to do: Take the record away, and name the earlier entry's number in its place.",
        },
        Question::TermEnded { .. } => Texts {
            needed: "the last record must end the term",
            details: "Is the term ended after the last record?\n\
                Asked by load, after the last record; the place is the number of records.\n\
                A no means: A node lacks a child.\n\
                What to do: Add the missing nodes, and raise the count in the head.",
        },
        Question::Counts => Texts {
            needed: "there must be 1 to 4096 nodes, and a count of types from 6 to 1030 that the type table has",
            details: "Are there 1 to 4,096 nodes, and is the count from 6 to 1,030 and within the table?\n\
                Asked by write, first of all.\n\
                A no means: There is no node or there are too many, or the count leaves out a given entry or passes the end of the table.\n\
                What to do: Give the nodes of one rule, and count the given six entries too.",
        },
        Question::CheckRoom => Texts {
            needed: "with N nodes, the type table must have N entries past the count, and the scratch list 4 N numbers",
            details: "Is the type table at least as long as count and nodes together, and the scratch list four times the nodes?\n\
                Asked by check, after the counts.\n\
                A no means: There is no room for the types that checking may add, one for each node at most, or for its notes.\n\
                What to do: Lend a longer table or list; 5,126 entries and 16,384 numbers serve every rule.",
        },
        Question::EntryLaid { .. } => Texts {
            needed: "entries 0 to 5 must be the given six, and each later entry a new TF, TP or TS of two lower entries",
            details: "Is each entry below the count as a type table lays it down?\n\
                Asked by write, of each entry below the count; the place is the first entry at fault.\n\
                A no means: An entry is blank or of another form, differs from the given one, names itself or a later entry, or equals an earlier one.\n\
                What to do: Correct the entry, or lower the count.",
        },
        Question::OneTerm { .. } => Texts {
            needed: "the nodes must be one term, with type numbers below the count, indexes below 4096, query numbers below 8, all else 0",
            details: "Are the nodes exactly one term, with numbers in range?\n\
                Asked by write, of the nodes; the place is the first node at fault, or the number of nodes where the term is not ended.\n\
                A no means: A node is blank, has a number out of range or follows the end of the term, or the term lacks a node at its end.\n\
                What to do: Correct the node there, add the missing nodes, or take away those past the end of the term.",
        },
        Question::ByteRoom => Texts {
            needed: "a byte list of 6 bytes for the head, each type record and each node is needed",
            details: "Is the byte list long enough?\n\
                Asked by write, last of all.\n\
                A no means: The rule does not fit into the byte list.\n\
                What to do: Lend a longer byte list; 30,726 bytes serve every rule.",
        },
        Question::IndexBound { .. } => Texts {
            needed: "a variable's index must be below the number of binders around it",
            details: "Is the variable's index below the number of binders around it?\n\
                Asked by check, on reaching a variable; the place is the node.\n\
                A no means: The variable belongs to no binder of the rule. LA binds one variable in its child, RE one in its third child, CA one in its second and one in its third.\n\
                What to do: Correct the index, which counts the binders between the variable and its own, or add the binder.",
        },
        Question::QuestionKnown { .. } => Texts {
            needed: "the host's profile must have the query's question",
            details: "Does the host have the query's question?\n\
                Asked by check, on reaching a query; the place is the node.\n\
                A no means: The digit of the host's profile for this question is 0. A listing has the questions 0 to 3.\n\
                What to do: Correct the query's number, or check the rule under a host that has the question.",
        },
        Question::FirstChild { .. } => Texts {
            needed: "child 1 must be a nat for SU, RE and QU, a void for AB, a function for AP, a pair for FS and SN, a sum for CA",
            details: "Is the node's first child of a type that the node can take?\n\
                Asked by check, as soon as the first child has a type; the place is the node, and the child is 1.\n\
                A no means: A successor, a recursion or a query is of no nat, an abort of no void, an application of no function, a first or second of no pair, or a case of no sum.\n\
                What to do: Correct the child, or the node above it.",
        },
        Question::LaterChild { .. } => Texts {
            needed: "child 2 of AP must have the parameter's type, child 3 of CA the type of child 2, and child 3 of RE must be a function from the type of child 2 to itself",
            details: "Does this later child of the node agree with those before it?\n\
                Asked by check, as soon as that child has a type; the place is the node, and the child is its number.\n\
                A no means: An argument is not of the parameter's type, the two branches of a case have different types, or the step of a recursion is no function from the type of the second child to itself.\n\
                What to do: Correct the child that is named or the one that it has to agree with; types agree only if they are the same.",
        },
        Question::StepFunction { .. } => Texts {
            needed: "child 3 of RE must be an LA",
            details: "Is the recursion's third child a function as it stands?\n\
                Asked by check, where that child has the right type; the place is the recursion, and the child is 3.\n\
                A no means: The child has the type of a function but begins with another node than LA.\n\
                What to do: Write it as an LA, if need be one that applies the child to its variable.",
        },
        Question::TermHeld => Texts {
            needed: "the run must hold a term, and its tables must have the length that it was started with",
            details: "Does the run hold a term, and have the tables the recorded length?\n\
                Asked by run, first of all; by look and close for the front table alone.\n\
                A no means: The run was started with tables that did not fit the rule, or other tables were lent than those it was started with.\n\
                What to do: Start with two tables of one length, from the rule's nodes to 4,096, and lend the same two to every call.",
        },
        Question::FuelLeft => Texts {
            needed: "the fuel and the steps made before must be at most 1000000 together",
            details: "Is the fuel at most 1,000,000 less the steps made in all?\n\
                Asked by run, after the tables' lengths.\n\
                A no means: With this fuel the run could make more than 1,000,000 steps.\n\
                What to do: Ask for less fuel; a run that has made 1,000,000 steps can only be asked for 0.",
        },
        Question::ProfileAccepted => Texts {
            needed: "the host must have the profile that the rule was accepted under",
            details: "Is the host's profile the accepted one?\n\
                Asked by run, after the fuel.\n\
                A no means: The host has other questions, or answers of other shapes, than the one that the rule was checked under.\n\
                What to do: Run under a host with the accepted profile, or check the rule again under this one.",
        },
        Question::ClosedTerm { .. } => Texts {
            needed: "the front table's records must be one closed term, as many as the run recorded, with query numbers below 8 and all else but indexes and type numbers 0",
            details: "Are the front table's first records one closed term?\n\
                Asked by run and close, of as many records as the run recorded; the place is the first record at fault, or their number where the term is not ended.\n\
                A no means: The front table was written between the calls. Within a run this holds by itself.\n\
                What to do: Leave the front table as the last call left it, and start anew.",
        },
        Question::ValueHeld => Texts {
            needed: "the term that the run holds must be a value",
            details: "Is the held term a value?\n\
                Asked by close, last of all.\n\
                A no means: The run was closed before it came to a value, so nothing is decided.\n\
                What to do: Run on until run answers value, with more fuel or longer tables.",
        },
        Question::VersionRoom => Texts {
            needed: "a listing must have at most 200 versions",
            details: "Has the listing at most 200 versions?\n\
                Asked where a listing is made.\n\
                A no means: There are more versions than a listing can have.\n\
                What to do: Leave out versions that no build may see.",
        },
        Question::LineRoom => Texts {
            needed: "a sheet must have at most 1024 lines",
            details: "Has the sheet at most 1,024 lines?\n\
                Asked where a sheet is made, first of all.\n\
                A no means: There are more lines than a sheet can have.\n\
                What to do: Leave out lines that say what a sheet answers without them: 0, no, absent or (0, 0).",
        },
        Question::ProfileDigit { .. } => Texts {
            needed: "each digit of the profile must be 0 to 4",
            details: "Is each digit of the profile at most 4?\n\
                Asked where a sheet is made; the place is the first digit at fault, and the lowest is digit 0.\n\
                A no means: A hexadecimal digit stands for no shape of answers.\n\
                What to do: Write 0 for no such question, 1 for a number, 2 for a flag, 3 for a maybe, 4 for a pair.",
        },
        Question::LineLegal { .. } => Texts {
            needed: "the profile must have the line's question, its number must be at most 4095, and a and b must be an answer of the question's shape with numbers at most 255",
            details: "Is the line's question there, its number at most 4,095 and its answer legal?\n\
                Asked where a sheet is made, of each line; the place is the line.\n\
                A no means: The profile has no such question, the number is too large, or a and b are no answer of its shape.\n\
                What to do: A number is a with b 0; a flag is 0 or 1 with b 0; a maybe is 0 and 0, or 1 and the number; a pair is a and b; numbers are at most 255.",
        },
        Question::LineNew { .. } => Texts {
            needed: "no earlier line may be for the same question and number",
            details: "Is no earlier line for the same question and number?\n\
                Asked where a sheet is made, of each line; the place is the line.\n\
                A no means: Two lines answer the same question at the same number.\n\
                What to do: Take one of them away.",
        },
    }
}

// A refusal in one line: layer, number, place and child, and what was needed.
#[derive(Clone, Copy)]
pub struct RefusalLine(pub Refusal);

impl fmt::Display for RefusalLine {
    fn fmt<W: fmt::Write>(&self, f: &mut fmt::Formatter<W>) -> fmt::Result {
        let Report {
            layer,
            number,
            place,
            child,
        } = self.0.report();
        let needs = needed(self.0.question);
        write!(f, "refused {layer} {number} {place} {child}: {needs}")
    }
}

// A question explained on several lines.
#[derive(Clone, Copy)]
pub struct Explanation(pub Question);

impl fmt::Display for Explanation {
    fn fmt<W: fmt::Write>(&self, f: &mut fmt::Formatter<W>) -> fmt::Result {
        let Texts { needed, details } = texts_of(self.0);
        write!(f, "{details}\nNeeded for a yes: {needed}.")
    }
}
