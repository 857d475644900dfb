// A version of a listing: when it was published and withdrawn, its line and its patch.
ghost use Rattle.std.specs.Prelude.{◌≤◌};
ghost use Rattle.calculus.specs.Meanings.{largest_number};

use crate::host::LARGEST_NUMBER;

#[derive(Clone, Copy)]
pub struct Version {
    // the day of publication
    pub published: u16,
    // the day of withdrawal, 0 for never: a listing's form is four numbers for a version
    pub withdrawn: u16,
    pub line: u8,
    pub patch: u8,
    // A number of 8 bits may stand in an answer.
    ghost line_fits: { line ≤ largest_number },
    ghost patch_fits: { patch ≤ largest_number },
}

impl Version {
    ghost use Rattle.std.specs.Prelude.{◌≡◌, ◌-◌, ◌==◌, ◌&&◌, min, not, nat_le};

    // The days since the version was published, 0 to 255.
    pub fn age(&self, today: u16) -> u16
        ensures value { result ≡ min (today - self.now.published) largest_number }
    {
        today.saturating_sub(self.published).min(LARGEST_NUMBER)
    }

    // Whether the version is withdrawn by today.
    pub fn is_gone(&self, today: u16) -> bool
        ensures value { result ≡ (not (self.now.withdrawn == 0) && nat_le self.now.withdrawn today) }
    {
        (1..=today).contains(&self.withdrawn)
    }
}
