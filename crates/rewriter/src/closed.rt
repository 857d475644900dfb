// Whether nodes are one closed term.
ghost use Rattle.std.specs.Prelude.{◌≡◌, length};
ghost use Rattle.rewriter.specs.Depths.{HasRoom};
ghost use Rattle.rewriter.specs.ClosedTerms.{fits_under, JudgedClosed};

use crate::depths::Depths;
use calculus::kind::Kind;
use calculus::node::Node;
use terms::is_in_range;

// Above every type number, so that each is in range.
const ANY_TYPE: usize = 65536;

// Whether a node may stand under `depth` binders, with any type number.
fn fits_under(node: Node, depth: u16) -> bool
    ensures value { result ≡ fits_under depth node }
{
    let in_scope = node.kind != Kind::Variable || node.number < depth;
    in_scope && is_in_range(node, ANY_TYPE)
}

// Where the nodes stop being one closed term: nowhere, or at the first node at fault, or at the end of an unended term.
// `depths` is scratch.
pub fn closed_fault(nodes: &[Node], depths: &mut [u16]) -> Option<usize>
    requires room { HasRoom (length depths.old) nodes.now }
    ensures judged { JudgedClosed nodes.now result }
{
    let mut pending = Depths::new(depths);
    pending.restart(0);
    for (i, node) in nodes.iter().enumerate() {
        match pending.pop() {
            Some(depth) if fits_under(*node, depth) => pending.push_children(node.kind, depth),
            _ => return Some(i),
        }
    }
    if pending.is_empty() {
        None
    } else {
        Some(nodes.len())
    }
}
