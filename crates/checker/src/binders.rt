// The binders around a node, in the scratch list.
ghost use Rattle.std.specs.Prelude.{◌≡◌, ◌<◌, true, [], length};
ghost use Rattle.std.specs.List.{slice_get};
ghost use Rattle.checker.specs.Contexts.{bind, unbind};

use std::marker::Model;

// The types of the binders around a node, in lent numbers. A clause sees the types, the innermost first, and for how many there
// is room. Each number has 16 bits, so `as` loses nothing when it is read.
#[derive(Drop)]
pub struct Binders<'a> {
    words: &'a mut [u32],
    depth: usize,
}

impl<'a> Model for Binders<'a> {
    ghost use Rattle.checker.specs.Binders.{Bound, bound, IsBound};

    ghost Value = { Bound };

    ghost view = { bound };

    ghost invariant = { IsBound };
}

impl<'a> Binders<'a> {
    // No binders.
    pub fn new(words: &'a mut [u32]) -> Binders<'a>
        ensures value { result ≡ record { types = []; room = length words.old } }
    {
        Binders { words, depth: 0 }
    }

    // The type of the variable with this index, which counts from the innermost binder.
    pub fn get(&self, index: u16) -> Option<u16>
        ensures value { result ≡ slice_get self.now.types index }
    {
        let outward = usize::from(index);
        if outward < self.depth {
            // (as: it is below 65,536, and try_from would add an error that never comes)
            Some(self.words[self.depth - 1 - outward] as u16)
        } else {
            None
        }
    }

    // Enters a binder of this type, if there is one.
    pub fn enter(&mut self, binder: Option<u16>)
        requires room { length self.old.types < self.old.room }
        ensures after { self.new ≡ record self.old { types = bind binder self.old.types } }
    {
        if let Some(number) = binder {
            self.words[self.depth] = u32::from(number);
            self.depth += 1;
        }
    }

    // Leaves the innermost binder, if it is to be left.
    pub fn leave(&mut self, leaves: bool)
        requires some { leaves ≡ true → 0 < length self.old.types }
        ensures after { self.new ≡ record self.old { types = unbind leaves self.old.types } }
    {
        if leaves {
            self.depth -= 1;
        }
    }
}
