// Frames: what an unfinished node waits for, and how frames stand in the scratch list.
ghost use Rattle.std.specs.Prelude.{◌≡◌, ◌/◌, ◌<◌, [], ◌∷◌, length, IfSome, IfNone};
ghost use Rattle.checker.specs.Awaiting.{code_of, kept_of, awaits_of, bound_of, frame};

use std::marker::Model;

// The child that an unfinished node waits for, with the type number that it keeps until then: the second child with the type
// of the first, the third with the type of the second.
#[derive(Clone, Copy)]
pub enum Awaits {
    First,
    Second(u16),
    Third(u16),
}

// An unfinished node: its place, what it waits for, and whether that child stands under a binder of the node. (A flag, and
// no case of Awaits: each of the three may stand under a binder or not.)
#[derive(Clone, Copy)]
pub struct Frame {
    pub place: u16,
    pub awaits: Awaits,
    pub bound: bool,
}

impl Frame {
    // The number of the awaited child, and 3 more where it stands under a binder: the scratch list holds numbers alone.
    fn code(self) -> u32
        ensures value { result ≡ code_of self.awaits self.bound }
    {
        match (self.awaits, self.bound) {
            (Awaits::First, false) => 1,
            (Awaits::Second(_), false) => 2,
            (Awaits::Third(_), false) => 3,
            (Awaits::First, true) => 4,
            (Awaits::Second(_), true) => 5,
            (Awaits::Third(_), true) => 6,
        }
    }

    // The kept type, or 0: the scratch list holds numbers alone.
    fn kept(self) -> u16
        ensures value { result ≡ kept_of self.awaits }
    {
        match self.awaits {
            Awaits::First => 0,
            Awaits::Second(kept) | Awaits::Third(kept) => kept,
        }
    }

    // The frame at this place with this code and this kept type.
    fn coded(place: u16, code: u32, kept: u16) -> Frame
        ensures value { result ≡ frame place (awaits_of code kept) (bound_of code) }
    {
        let awaits = match code {
            1 | 4 => Awaits::First,
            2 | 5 => Awaits::Second(kept),
            _ => Awaits::Third(kept),
        };
        Frame {
            place,
            awaits,
            bound: code > 3,
        }
    }
}

// The frames of the unfinished nodes, in lent numbers, three to a frame: its place, its code, its kept type. A clause sees the
// frames, the topmost first, and for how many there is room. Each number has 16 bits, so `as` loses nothing when it is read.
#[derive(Drop)]
pub struct Stack<'a> {
    words: &'a mut [u32],
    depth: usize,
}

impl<'a> Model for Stack<'a> {
    ghost use Rattle.checker.specs.Frames.{Stacked, stacked, IsStack};

    ghost Value = { Stacked };

    ghost view = { stacked };

    ghost invariant = { IsStack };
}

impl<'a> Stack<'a> {
    // No frames.
    pub fn new(words: &'a mut [u32]) -> Stack<'a>
        ensures value { result ≡ record { frames = []; room = length words.old / 3 } }
    {
        Stack { words, depth: 0 }
    }

    // Puts a frame on top.
    pub fn push(&mut self, frame: Frame)
        requires room { length self.old.frames < self.old.room }
        ensures after { self.new ≡ record self.old { frames = frame ∷ self.old.frames } }
    {
        let at = 3 * self.depth;
        self.words[at] = u32::from(frame.place);
        self.words[at + 1] = frame.code();
        self.words[at + 2] = u32::from(frame.kept());
        self.depth += 1;
    }

    // Takes the topmost frame off, if there is one.
    pub fn pop(&mut self) -> Option<Frame>
        ensures none { IfNone result (self.old.frames ≡ []) }
        ensures top { IfSome result (λ f. self.old.frames ≡ f ∷ self.new.frames) }
        ensures room { self.new.room ≡ self.old.room }
    {
        if self.depth == 0 {
            return None;
        }
        let top = self.depth - 1;
        self.depth = top;
        // (as: it is below 65,536, and try_from would add an error that never comes)
        let place = self.words[3 * top] as u16;
        let kept = self.words[3 * top + 2] as u16;
        Some(Frame::coded(place, self.words[3 * top + 1], kept))
    }
}
