// The records of a file, each still a part of it, and what they say.
ghost use Rattle.std.specs.Prelude.{◌≡◌, ◌*◌, ◌/◌, ◌≤◌, length, take, drop, IfSome, MatchOption};
ghost use Rattle.rule_file.specs.Records.{bytes_of, sort_of, sort_by_mark, first_number_lem, second_number_lem, entry_of, node_of};

use calculus::entry::Entry;
use calculus::form::Form;
use calculus::kind::Kind;
use calculus::node::Node;

// A record by its mark: the head, a type, a node, or none of them. Each holds its six bytes of the lent file.
#[derive(Clone, Copy)]
pub enum Record<'a> {
    Head(&'a [u8; 6]),
    Type(&'a [u8; 6]),
    Node(&'a [u8; 6]),
    Unreadable(&'a [u8; 6]),
}

// The record that these six bytes are.
#[tactic(auto, unfolding(crate::specs::Records::sort_by_mark))]
pub fn record_of(six: &[u8; 6]) -> Record<'_>
    ensures bytes { bytes_of result ≡ six.now }
    ensures sort { sort_of result ≡ sort_by_mark six.now }
{
    let [a, b, ..] = *six;
    if a == b'R' && b == b'U' {
        return Record::Head(six);
    }
    match (Form::of_mark(a, b), Kind::of_mark(a, b)) {
        (Form::Function | Form::Product | Form::Sum, _) => Record::Type(six),
        (_, Kind::Blank) => Record::Unreadable(six),
        _ => Record::Node(six),
    }
}

// The six bytes of the record at a place of the file, or none past its last whole record.
pub fn six_at(file: &[u8], place: usize) -> Option<&[u8; 6]>
    ensures bytes { MatchOption result (length file.now / 6 ≤ place) (λ six. six.now ≡ take 6 (drop (6 * place) file.now)) }
{
    let (records, _) = file.as_chunks::<6>();
    records.get(place)
}

// The record at a place of the file, or none past its last whole record.
pub fn record_at(file: &[u8], place: usize) -> Option<Record<'_>>
    ensures bytes { MatchOption result (length file.now / 6 ≤ place) (λ x. bytes_of x ≡ take 6 (drop (6 * place) file.now)) }
    ensures sort { IfSome result (λ x. sort_of x ≡ sort_by_mark (take 6 (drop (6 * place) file.now))) }
{
    six_at(file, place).map(record_of)
}

// The first of a record's two numbers, low byte first.
pub fn first_number(six: &[u8; 6]) -> u16
    ensures value { result ≡ first_number_lem six.now }
{
    u16::from_le_bytes([six[2], six[3]])
}

// The second of a record's two numbers, low byte first. Two functions, each named for its number: one that takes the place
// would be no shorter, and its callers would say the place.
pub fn second_number(six: &[u8; 6]) -> u16
    ensures value { result ≡ second_number_lem six.now }
{
    u16::from_le_bytes([six[4], six[5]])
}

// The head of a file: how many type records and nodes follow.
#[derive(Clone, Copy)]
pub struct Head {
    pub types: u16,
    pub nodes: u16,
}

// The two counts that a head says.
pub fn head_of(six: &[u8; 6]) -> Head
    ensures types { result.types ≡ first_number_lem six.now }
    ensures nodes { result.nodes ≡ second_number_lem six.now }
{
    Head {
        types: first_number(six),
        nodes: second_number(six),
    }
}

// The entry that a type record says; its form is blank where the mark is not one of a type. (A From could be written beside the
// entry alone, and records are not known there; so with the node, and the head is named as they are.)
#[tactic(auto, unfolding(crate::specs::Records::form_in))]
pub fn entry_of(six: &[u8; 6]) -> Entry
    ensures value { result ≡ entry_of six.now }
{
    Entry {
        form: Form::of_mark(six[0], six[1]),
        left: first_number(six),
        right: second_number(six),
    }
}

// The node that a node record says; its kind is blank where the mark is not one of a node.
#[tactic(auto, unfolding(crate::specs::Records::kind_in))]
pub fn node_of(six: &[u8; 6]) -> Node
    ensures value { result ≡ node_of six.now }
{
    Node {
        kind: Kind::of_mark(six[0], six[1]),
        number: first_number(six),
    }
}
