// Each form of a text, and records as bytes, nodes and entries.
use crate::record::{Record, all_of, bytes_of};
use crate::text::{Rising, records};
use calculus::entry::Entry;
use calculus::form::Form;
use calculus::kind::Kind;
use calculus::node::Node;
use std::test::Fail;

// Texts, each with the same records word by word.
const FORMS: [(&str, Rising, &str); 8] = [
    ("ZE", Rising::First, "ZE0/0"),
    ("VA7  SU", Rising::First, "VA7/0 SU0/0"),
    ("ZE*3", Rising::First, "ZE ZE ZE"),
    ("AP,ZE*2 TR", Rising::First, "AP ZE AP ZE TR"),
    ("TF0/5+3", Rising::First, "TF0/5 TF1/5 TF2/5"),
    ("TF0/5+3", Rising::Second, "TF0/5 TF0/6 TF0/7"),
    ("TF+2 ZE*0", Rising::Second, "TF0/0 TF0/1"),
    ("given", Rising::First, "TN TU TV TS1/1 TS1/0 TP"),
];

#[test]
fn reads_each_form(rt: HostRuntime) -> Result<(), Fail> {
    for (text, rising, words) in FORMS {
        let read = records(rt.alloc(), text, rising)?;
        let due = records(rt.alloc(), words, rising)?;
        assert_eq!(rt; read, due, "at {text}");
    }
    Ok(())
}

#[test]
fn reads_a_word(rt: HostRuntime) -> Result<(), Fail> {
    let due = Record {
        mark: *b"TF",
        first: 7,
        second: 65535,
    };
    assert_eq!(rt; "TF7/65535".parse::<Record>()?, due);
    for word in ["", "T", "TFx", "TF65536", "TF7/x"] {
        assert!(rt; word.parse::<Record>().is_err(), "at {word}");
    }
    Ok(())
}

#[test]
fn records_stand_for_bytes_nodes_and_entries(rt: HostRuntime) -> Result<(), Fail> {
    let read = records(rt.alloc(), "TF513/6 --", Rising::First)?;
    let bytes = bytes_of(rt.alloc(), &read)?;
    assert_eq!(rt;
        bytes.as_slice(),
        [84, 70, 1, 2, 6, 0, 45, 45, 0, 0, 0, 0].as_slice()
    );
    let entry = Entry {
        form: Form::Function,
        left: 513,
        right: 6,
    };
    let entries: Vec<Entry> = all_of(rt.alloc(), &read)?;
    assert_eq!(rt; entries.as_slice(), [entry, Entry::BLANK].as_slice());
    let read = records(rt.alloc(), "VA3 --", Rising::First)?;
    let node = Node {
        kind: Kind::Variable,
        number: 3,
    };
    let nodes: Vec<Node> = all_of(rt.alloc(), &read)?;
    assert_eq!(rt; nodes.as_slice(), [node, Node::BLANK].as_slice());
    let read = records(rt.alloc(), "VA3 XX", Rising::First)?;
    assert!(rt; all_of::<Node>(rt.alloc(), &read).is_err());
    Ok(())
}
