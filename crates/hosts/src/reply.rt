// Answers as nodes: the written form of the term that an answer is.
ghost use Rattle.std.specs.Prelude.{◌≡◌, ◌+◌, ◌<◌, ◌≤◌, [], ◌∷◌, ◌++◌, length, take, drop, MatchOption};
ghost use Rattle.calculus.specs.declared.kind.Kind.TheVariants.{Triv};
ghost use Rattle.calculus.specs.Kinds.{node};
ghost use Rattle.calculus.specs.Syntax.{flat, size, numeral, IR, PA};
ghost use Rattle.calculus.specs.Meanings.{reply};

use calculus::answer::Answer;
use calculus::kind::Kind;
use calculus::node::Node;

// How many nodes an answer is.
#[tactic(auto, using(crate::proofs::Replies::number_size, crate::proofs::Replies::present_size, crate::proofs::Replies::pair_size))]
pub fn answer_length(answer: Answer) -> usize
    ensures value { result ≡ size (reply answer) }
{
    match answer {
        Answer::Number(n) => usize::from(n) + 1,
        Answer::Flag(_) | Answer::Maybe(None) => 2,
        Answer::Maybe(Some(n)) => usize::from(n) + 2,
        Answer::Pair(m, n) => usize::from(m) + usize::from(n) + 3,
    }
}

// A node of a kind with a number.
fn node_of(kind: Kind, number: u16) -> Node
    ensures value { result ≡ node kind number }
{
    Node { kind, number }
}

// Writes the numeral of a number.
fn put_numeral(number: u16, out: &mut [Node])
    requires { number < length out.old }
    ensures after { out.new ≡ flat (numeral number) ++ drop (number + 1) out.old }
{
    let end = usize::from(number);
    out[..end].fill(node_of(Kind::Successor, 0));
    out[end] = node_of(Kind::Zero, 0);
}

// Writes a node and a triv below it.
fn put_triv(kind: Kind, number: u16, out: &mut [Node])
    requires { 2 ≤ length out.old }
    ensures after { out.new ≡ node kind number ∷ (node Triv 0 ∷ drop 2 out.old) }
{
    out[0] = node_of(kind, number);
    out[1] = node_of(Kind::Triv, 0);
}

// Writes a number that is present.
fn put_present(number: u16, out: &mut [Node])
    requires { number + 2 ≤ length out.old }
    ensures after { out.new ≡ flat (IR 1 (numeral number)) ++ drop (number + 2) out.old }
{
    out[0] = node_of(Kind::Inr, 1);
    put_numeral(number, &mut out[1..]);
}

// Writes a pair of numbers.
fn put_pair(m: u16, n: u16, out: &mut [Node])
    requires { m + n + 3 ≤ length out.old }
    ensures after { out.new ≡ flat (PA (numeral m) (numeral n)) ++ drop (m + n + 3) out.old }
{
    out[0] = node_of(Kind::Pair, 0);
    put_numeral(m, &mut out[1..]);
    put_numeral(n, &mut out[usize::from(m) + 2..]);
}

// Writes an answer for which there is room.
#[tactic(auto, using(crate::proofs::Replies::number_size, crate::proofs::Replies::present_size, crate::proofs::Replies::pair_size))]
fn put_reply(answer: Answer, out: &mut [Node])
    requires { size (reply answer) ≤ length out.old }
    ensures after { out.new ≡ flat (reply answer) ++ drop (size (reply answer)) out.old }
{
    match answer {
        Answer::Number(n) => put_numeral(n, out),
        Answer::Flag(false) => put_triv(Kind::Inl, 1, out),
        Answer::Flag(true) => put_triv(Kind::Inr, 1, out),
        Answer::Maybe(None) => put_triv(Kind::Inl, 0, out),
        Answer::Maybe(Some(n)) => put_present(n, out),
        Answer::Pair(m, n) => put_pair(m, n, out),
    }
}

// Writes an answer to the front of a list of nodes and says how many nodes it is. Where it does not fit, it answers none
// and leaves the list as it was.
pub fn put_answer(answer: Answer, out: &mut [Node]) -> Option<usize>
    ensures call { MatchOption result ((length out.old < size (reply answer)) × (out.new ≡ out.old)) (λ k. (k ≡ size (reply answer)) × (out.new ≡ flat (reply answer) ++ drop k out.old)) }
{
    let length = answer_length(answer);
    if out.len() < length {
        return None;
    }
    put_reply(answer, out);
    Some(length)
}
