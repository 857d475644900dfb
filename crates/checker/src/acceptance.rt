// An acceptance: a rule that check accepted, with its nodes still lent.
ghost use Rattle.std.specs.Prelude.{◌≡◌};
ghost use Rattle.calculus.specs.Syntax.{Term, flat};
ghost use Rattle.calculus.specs.Accepted.{Accepted};

use calculus::node::Node;

// While it stands, its nodes can be read and not written. Only check makes one.
#[derive(Clone, Copy)]
pub struct Acceptance<'a> {
    pub(crate) nodes: &'a [Node],
    pub(crate) type_number: u16,
    // the type table is the caller's, and longer than its entries
    pub(crate) count: usize,
    pub(crate) profile: u32,
    // The nodes are a term that has a derivation of this type under this profile, by some type table. (A clause that speaks of the
    // term names it: this field says only that there is one.)
    ghost rule: { ∥ ((t : Term) × (flat t ≡ nodes.now) × Accepted t type_number profile) ∥₁ },
}

impl<'a> Acceptance<'a> {
    // The acceptance of nodes that were checked.
    pub(crate) fn new(
        nodes: &'a [Node],
        type_number: u16,
        count: usize,
        profile: u32,
    ) -> Acceptance<'a>
        requires { ∥ ((t : Term) × (flat t ≡ nodes.now) × Accepted t type_number profile) ∥₁ }
        ensures nodes { result.nodes ≡ nodes.entry }
        ensures type_number { result.type_number ≡ type_number }
        ensures count { result.count ≡ count }
        ensures profile { result.profile ≡ profile }
    {
        Acceptance {
            nodes,
            type_number,
            count,
            profile,
        }
    }

    // The rule.
    pub fn nodes(&self) -> &'a [Node]
        ensures value { result ≡ self.now.nodes }
    {
        self.nodes
    }

    // The number of its type in the table that check left.
    pub fn type_number(&self) -> u16
        ensures value { result ≡ self.now.type_number }
    {
        self.type_number
    }

    // How many entries that table has.
    pub fn count(&self) -> usize
        ensures value { result ≡ self.now.count }
    {
        self.count
    }

    // The profile of the host under which it was checked.
    pub fn profile(&self) -> u32
        ensures value { result ≡ self.now.profile }
    {
        self.profile
    }
}
