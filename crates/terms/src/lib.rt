// Reading flat terms: one term or the first node at fault, and where a term ends.
#![tactic(auto)]

ghost use Rattle.std.specs.Prelude.{◌≡◌};
ghost use Rattle.terms.specs.Ranges.{in_range};
ghost use Rattle.terms.specs.Whole.{Judged, EndsAt};

use calculus::kind::Kind;
use calculus::node::Node;

// Whether a node may stand in a term where type numbers are below `types`: an index is below 4,096, a question below 8,
// and a number that means nothing is 0. A blank may not.
pub fn is_in_range(node: Node, types: usize) -> bool
    ensures value { result ≡ in_range types node }
{
    let number = usize::from(node.number);
    match node.kind {
        Kind::Blank => false,
        Kind::Variable => number < 4096,
        Kind::Lambda | Kind::Abort | Kind::Inl | Kind::Inr => number < types,
        Kind::Query => number < 8,
        Kind::Zero | Kind::Successor | Kind::Rec | Kind::Apply | Kind::Triv => number == 0,
        Kind::Pair | Kind::Fst | Kind::Snd | Kind::Case => number == 0,
    }
}

// Where the nodes stop being one term: nowhere, or at the first node at fault, or at the end of an unended term. (An Option, as
// of a search: each caller's own question says what the place is.)
pub fn first_fault(nodes: &[Node], types: usize) -> Option<usize>
    ensures judged { Judged types nodes.now result }
{
    let mut pending = 1;
    for (i, node) in nodes.iter().enumerate() {
        if !is_in_range(*node, types) || pending == 0 {
            return Some(i);
        }
        pending = pending - 1 + node.kind.children();
    }
    if pending > 0 { Some(nodes.len()) } else { None }
}

// The place just past the term that begins at `at`, whatever its numbers; none where the nodes end before it does.
pub fn end_of_term(nodes: &[Node], at: usize) -> Option<usize>
    ensures ends { EndsAt nodes.now at result }
{
    let mut pending = 1;
    for (i, node) in nodes.get(at..)?.iter().enumerate() {
        pending = pending - 1 + node.kind.children();
        if pending == 0 {
            return Some(at + i + 1);
        }
    }
    None
}

#[cfg(test)]
mod tests {
    use super::*;

    fn node(kind: Kind, number: u16) -> Node {
        Node { kind, number }
    }

    #[test]
    fn one_term(rt: HostRuntime) {
        let nodes = [
            node(Kind::Apply, 0),
            node(Kind::Lambda, 1),
            node(Kind::Variable, 0),
            node(Kind::Zero, 0),
        ];
        assert_eq!(rt; first_fault(&nodes, 6), None);
        assert_eq!(rt; end_of_term(&nodes, 0), Some(4));
        assert_eq!(rt; end_of_term(&nodes, 1), Some(3));
        assert_eq!(rt; end_of_term(&nodes, 4), None);
    }

    #[test]
    fn faults(rt: HostRuntime) {
        let zero = node(Kind::Zero, 0);
        assert_eq!(rt;
            first_fault(&[node(Kind::Pair, 0), Node::BLANK, zero], 6),
            Some(1)
        );
        assert_eq!(rt; first_fault(&[node(Kind::Pair, 0), zero], 6), Some(2));
        assert_eq!(rt; first_fault(&[zero, zero], 6), Some(1));
    }

    #[test]
    fn range_limits(rt: HostRuntime) {
        assert!(rt; is_in_range(node(Kind::Variable, 4095), 6));
        assert!(rt; !is_in_range(node(Kind::Variable, 4096), 6));
        assert!(rt; is_in_range(node(Kind::Query, 7), 6));
        assert!(rt; !is_in_range(node(Kind::Query, 8), 6));
        assert!(rt; is_in_range(node(Kind::Lambda, 5), 6));
        assert!(rt; !is_in_range(node(Kind::Lambda, 6), 6));
        assert!(rt; is_in_range(node(Kind::Zero, 0), 6));
        assert!(rt; !is_in_range(node(Kind::Zero, 1), 6));
    }
}
