// Where evaluation of a term stands: found in one pass over its nodes.
ghost use Rattle.std.specs.Prelude.{◌≡◌, None as none};
ghost use Rattle.rewriter.specs.Searches.{role_of_lem, focused, focus};

use calculus::kind::Kind;
use calculus::node::Node;

// What a node is to evaluation: it makes a value of the values of so many children; or it is a value, whatever its body
// is; or it takes the values of its first so many children; or it is open, a variable or a blank.
#[derive(Clone, Copy)]
pub enum Role {
    Constructor(usize),
    Function,
    Eliminator(usize),
    Open,
}

// Where evaluation of a term stands: the term is a value; it waits for a variable; or the eliminator at `at` has its
// values, which end before `upto`.
#[derive(Clone, Copy)]
pub enum Focus {
    Value,
    Variable,
    Eliminator { at: usize, upto: usize },
}

// What a node of this kind is to evaluation.
fn role_of(kind: Kind) -> Role
    ensures value { result ≡ role_of_lem kind }
{
    match kind {
        Kind::Blank | Kind::Variable => Role::Open,
        Kind::Zero | Kind::Triv => Role::Constructor(0),
        Kind::Successor | Kind::Inl | Kind::Inr => Role::Constructor(1),
        Kind::Pair => Role::Constructor(2),
        Kind::Lambda => Role::Function,
        Kind::Apply => Role::Eliminator(2),
        Kind::Rec | Kind::Fst | Kind::Snd => Role::Eliminator(1),
        Kind::Abort | Kind::Case | Kind::Query => Role::Eliminator(1),
    }
}

// Where evaluation stands once all values are there, if those of the last eliminator seen end before `upto`.
fn focus_at(last: Option<usize>, upto: usize) -> Focus
    ensures value { result ≡ focused last upto }
{
    last.map_or(Focus::Value, |at| Focus::Eliminator { at, upto })
}

// Where evaluation of the term that the nodes are stands. It goes from left to right, and an eliminator holds up all that
// was seen before it: so only the last one counts, with how many of its values are still wanted. The body of a function is
// passed over.
pub fn focus_of(nodes: &[Node]) -> Focus
    ensures value { result ≡ focus none 1 0 0 nodes.now }
{
    let mut last = None;
    let mut wanted = 1;
    let mut passing = 0;
    for (i, node) in nodes.iter().enumerate() {
        if wanted == 0 && passing == 0 {
            return focus_at(last, i);
        }
        if passing > 0 {
            passing = passing - 1 + node.kind.children();
            continue;
        }
        match role_of(node.kind) {
            Role::Constructor(n) => wanted = wanted - 1 + n,
            Role::Function => {
                wanted -= 1;
                passing = 1;
            }
            Role::Eliminator(n) => {
                last = Some(i);
                wanted = n;
            }
            Role::Open => return Focus::Variable,
        }
    }
    focus_at(last, nodes.len())
}
