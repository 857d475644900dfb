// A record of a file, a node or an entry: a mark and two numbers.
ghost use Rattle.std.specs.Prelude.{◌≡◌, IfOk};
ghost use Rattle.std.specs.List.{flat_map, AllZip};
ghost use Rattle.record_text.specs.Records.{bytes_of_record, StandsForNode, StandsForEntry};

use crate::text::TextError;
use calculus::entry::Entry;
use calculus::form::Form;
use calculus::kind::Kind;
use calculus::mark::UnknownMark;
use calculus::node::Node;
use std::alloc::{AllocError, Global};

#[derive(Clone, Copy, PartialEq, Eq, Debug)]
pub struct Record {
    pub mark: [u8; 2],
    pub first: u16,
    pub second: u16,
}

// The record's six bytes in a file. (Not the function with which write makes them: the tests hold write to this one.)
impl From<Record> for [u8; 6] {
    ghost from_gives = { λ r bytes. bytes ≡ bytes_of_record r };

    fn from(record: Record) -> [u8; 6] {
        let [a, b] = record.mark;
        let [c, d] = record.first.to_le_bytes();
        let [e, f] = record.second.to_le_bytes();
        [a, b, c, d, e, f]
    }
}

// The node of a record; its second number says nothing.
impl TryFrom<Record> for Node {
    type Error = UnknownMark;

    ghost try_from_gives = { StandsForNode };

    fn try_from(record: Record) -> Result<Node, UnknownMark> {
        Ok(Node {
            kind: Kind::try_from(record.mark)?,
            number: record.first,
        })
    }
}

impl TryFrom<Record> for Entry {
    type Error = UnknownMark;

    ghost try_from_gives = { StandsForEntry };

    fn try_from(record: Record) -> Result<Entry, UnknownMark> {
        Ok(Entry {
            form: Form::try_from(record.mark)?,
            left: record.first,
            right: record.second,
        })
    }
}

// The bytes of records, one after the other.
pub fn bytes_of(heap: Global, records: &[Record]) -> Result<Vec<u8>, AllocError>
    ensures { IfOk result (λ v. v.items ≡ flat_map bytes_of_record records.now) }
{
    let mut bytes = Vec::new(heap);
    for record in records {
        bytes.extend_from_slice(&<[u8; 6]>::from(*record))?;
    }
    Ok(bytes)
}

// The nodes or the entries of records.
pub fn all_of<T: TryFrom<Record, Error = UnknownMark> + Drop>(
    heap: Global,
    records: &[Record],
) -> Result<Vec<T>, TextError>
    ensures { IfOk result (λ v. AllZip (λ r x. T.try_from_gives r (Ok x)) records.now v.items) }
{
    let mut all = Vec::new(heap);
    for record in records {
        all.push(T::try_from(*record)?)?;
    }
    Ok(all)
}
