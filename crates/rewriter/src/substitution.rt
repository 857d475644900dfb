// Substitution: the body of a binder with a closed value in place of the binder's variable.
ghost use Rattle.std.specs.Prelude.{◌≡◌, [], ◌∷◌, length};
ghost use Rattle.rewriter.specs.Depths.{HasRoom};
ghost use Rattle.rewriter.specs.Substituted.{hits, substituted};
ghost use Rattle.rewriter.specs.Writes.{Wrote};

use crate::depths::Depths;
use crate::writing::write;
use calculus::kind::Kind;
use calculus::node::Node;

// Whether a node is the variable with this index.
fn is_index(node: Node, index: u16) -> bool
    ensures value { result ≡ hits index node }
{
    node.kind == Kind::Variable && node.number == index
}

// Writes the term that `body` begins with, `value` in place of the variable that is free in it, to the front of `out`. An
// index is that variable where it equals the number of binders around it. `depths` is scratch.
pub fn substitute(
    body: &[Node],
    value: &[Node],
    depths: &mut [u16],
    out: &mut [Node],
) -> Option<usize>
    requires room { HasRoom (length depths.old) body.now }
    ensures wrote { Wrote out.old 0 (substituted value.now (0 ∷ []) body.now) out.new result }
{
    let mut pending = Depths::new(depths);
    pending.restart(0);
    let mut used = 0;
    for node in body {
        let Some(depth) = pending.pop() else {
            break;
        };
        if is_index(*node, depth) {
            used = write(out, used, value)?;
        } else {
            used = write(out, used, &[*node])?;
            pending.push_children(node.kind, depth);
        }
    }
    Some(used)
}
