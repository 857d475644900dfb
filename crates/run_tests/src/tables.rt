// The two tables of a run.
use calculus::kind::Kind;
use calculus::node::Node;
use record_text::record::all_of;
use record_text::text::{Rising, TextError, records};
use std::alloc::{AllocError, Global};

// What a caller leaves where a run must not read.
const NOISE: Node = Node {
    kind: Kind::Successor,
    number: 9,
};

// The nodes of a text. (One line: a shared function would say type and way at each call.)
pub fn nodes_of(heap: Global, text: &str) -> Result<Vec<Node>, TextError> {
    all_of(heap, &records(heap, text, Rising::First)?)
}

#[derive(Clone, PartialEq, Eq, Drop)]
pub struct Tables {
    pub front: Vec<Node>,
    pub back: Vec<Node>,
}

impl Tables {
    // Tables of these lengths, full of noise.
    pub fn noisy(heap: Global, front: usize, back: usize) -> Result<Tables, AllocError> {
        Ok(Tables {
            front: vec![in heap; NOISE; front]?,
            back: vec![in heap; NOISE; back]?,
        })
    }

    // Tables of the same lengths, with this term and blanks in front, and blanks in back.
    pub fn holding(&self, heap: Global, term: &[Node]) -> Result<Tables, AllocError> {
        let mut front = term.to_vec(heap)?;
        front.resize(self.front.len(), Node::BLANK)?;
        Ok(Tables {
            front,
            back: vec![in heap; Node::BLANK; self.back.len()]?,
        })
    }

    // Whether a rule fits in them.
    pub fn fit(&self, rule: &[Node]) -> bool {
        let length = self.front.len();
        length == self.back.len() && rule.len() <= length && length <= 4096
    }

    // Writes nodes into front, from a place on.
    pub fn put(&mut self, at: usize, nodes: &[Node]) {
        for (place, node) in self.front.iter_mut().skip(at).zip(nodes.iter()) {
            *place = *node;
        }
    }

    // Writes noise into front past its first `used` records, and into all of back.
    pub fn disturb(&mut self, used: usize) {
        if let Some((_, past)) = self.front.split_at_mut_checked(used) {
            past.fill(NOISE);
        }
        self.back.fill(NOISE);
    }
}
