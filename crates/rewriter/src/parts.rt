// Where the parts of a term end.
ghost use Rattle.std.specs.Prelude.{◌≡◌, ◌+◌, ◌≤◌, List, length, drop};
ghost use Rattle.calculus.specs.Syntax.{Term, onto, size};
ghost use Rattle.calculus.specs.declared.node.Node.{Node as NodeOf};

use calculus::node::Node;
use terms::end_of_term;

// The place just past the term that begins at `at`, where one does.
pub fn past_term(nodes: &[Node], at: usize) -> usize
    requires { at ≤ length nodes.now }
    ensures after { at ≤ result }
    ensures within { result ≤ length nodes.now }
    ensures end { (t : Term) (rest : List NodeOf) → drop at nodes.now ≡ onto t rest → result ≡ at + size t }
{
    end_of_term(nodes, at).unwrap_or(nodes.len())
}
