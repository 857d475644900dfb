// Writing nodes into a table.
ghost use Rattle.std.specs.Prelude.{◌≤◌, length};
ghost use Rattle.rewriter.specs.Writes.{Wrote};

use calculus::node::Node;

// Writes `more` to `out` from the place `used` on, and answers where it ends, if it fits. The place is passed beside the
// table: where a part of the table was lent to each write instead, goals of its callers stayed open.
#[inline]
pub fn write(out: &mut [Node], used: usize, more: &[Node]) -> Option<usize>
    requires { used ≤ length out.old }
    ensures wrote { Wrote out.old used more.now out.new result }
{
    if out.len() - used < more.len() {
        return None;
    }
    let end = used + more.len();
    out[used..end].copy_from_slice(more);
    Some(end)
}
