// Writing a run's two tables.
ghost use Rattle.std.specs.Prelude.{◌≡◌, ◌-◌, ◌≤◌, ◌++◌, length, take, drop};
ghost use Rattle.evaluator.specs.OneCall.{blanks};

use calculus::node::Node;

// Copies the first `n` nodes of one table to the front of another.
pub(crate) fn copy_first(from: &[Node], n: usize, to: &mut [Node])
    requires from { n ≤ length from.now }
    requires to { n ≤ length to.old }
    ensures after { to.new ≡ take n from.now ++ drop n to.old }
{
    to[..n].copy_from_slice(&from[..n]);
}

// Blanks front behind its first `used` nodes, and all of back.
pub(crate) fn blank_rest(front: &mut [Node], used: usize, back: &mut [Node])
    requires { used ≤ length front.old }
    ensures front { front.new ≡ take used front.old ++ blanks (length front.old - used) }
    ensures back { back.new ≡ blanks (length back.old) }
{
    front[used..].fill(Node::BLANK);
    back.fill(Node::BLANK);
}
