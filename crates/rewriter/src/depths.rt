// The stack of depths: for each term that is still to come, how many binders stand around it.
ghost use Rattle.std.specs.Prelude.{◌≡◌, ◌+◌, ◌<◌, [], ◌∷◌, ◌++◌, ◌==◌, length, MatchOption};
ghost use Rattle.rewriter.specs.Depths.{child_depths};

use calculus::kind::Kind;
use std::marker::Model;

// A stack of depths in lent numbers. It grows down from their end. A clause sees the depths, the next term's first, and for
// how many there is room. That there is room for the nodes that a function reads is a clause there, `HasRoom`: a fact about
// two arguments, which the type of neither can hold.
#[derive(Drop)]
pub(crate) struct Depths<'a> {
    words: &'a mut [u16],
    top: usize,
}

impl<'a> Model for Depths<'a> {
    ghost use Rattle.std.specs.Prelude.{◌≤◌, length};
    ghost use Rattle.rewriter.specs.Depths.{Pending, pending};

    ghost Value = { Pending };

    ghost view = { pending };

    ghost invariant = { λ d. d.top ≤ length d.words.now };
}

impl<'a> Depths<'a> {
    // A stack without depths.
    pub(crate) fn new(words: &'a mut [u16]) -> Depths<'a>
        ensures value { result ≡ record { depths = []; room = length words.old } }
    {
        let top = words.len();
        Depths { words, top }
    }

    // Makes it the stack of one term, which stands at this depth.
    pub(crate) fn restart(&mut self, depth: u16)
        requires room { 0 < self.old.room }
        ensures after { self.new ≡ record self.old { depths = depth ∷ [] } }
    {
        self.top = self.words.len();
        self.push(depth);
    }

    // Whether no term is still to come.
    pub(crate) fn is_empty(&self) -> bool
        ensures value { result ≡ (length self.now.depths == 0) }
    {
        self.top == self.words.len()
    }

    fn push(&mut self, depth: u16)
        requires room { length self.old.depths < self.old.room }
        ensures after { self.new ≡ record self.old { depths = depth ∷ self.old.depths } }
    {
        self.top -= 1;
        self.words[self.top] = depth;
    }

    // Takes the depth of the next term off the stack. (No `get`: `search` found no proof of it on a slice behind a field.)
    pub(crate) fn pop(&mut self) -> Option<u16>
        ensures next { MatchOption result ((self.old.depths ≡ []) × (self.new.depths ≡ [])) (λ d. self.old.depths ≡ d ∷ self.new.depths) }
        ensures room { self.new.room ≡ self.old.room }
    {
        if self.top == self.words.len() {
            return None;
        }
        let depth = self.words[self.top];
        self.top += 1;
        Some(depth)
    }

    // Puts the depths of the children of a node of this kind, which stands at this depth, on the stack.
    pub(crate) fn push_children(&mut self, kind: Kind, depth: u16)
        requires room { length self.old.depths + 2 < self.old.room }
        requires depth_fits { depth < 65535 }
        ensures after { self.new ≡ record self.old { depths = child_depths kind depth ++ self.old.depths } }
    {
        match kind {
            Kind::Blank | Kind::Variable | Kind::Zero | Kind::Triv => {}
            Kind::Successor
            | Kind::Fst
            | Kind::Snd
            | Kind::Abort
            | Kind::Inl
            | Kind::Inr
            | Kind::Query => self.push(depth),
            Kind::Lambda => self.push(depth + 1),
            Kind::Apply | Kind::Pair => {
                self.push(depth);
                self.push(depth);
            }
            Kind::Rec => {
                self.push(depth + 1);
                self.push(depth);
                self.push(depth);
            }
            Kind::Case => {
                self.push(depth + 1);
                self.push(depth + 1);
                self.push(depth);
            }
        }
    }
}
