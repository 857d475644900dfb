// What a run keeps beside its two tables: front, which holds the term, and back, into which the next term is written. The
// tables are the caller's, who lends them to each call, since no call uses the heap; so their length and the term's count are
// kept here.
ghost use Rattle.std.specs.Prelude.{◌≡◌, ◌≤◌};
ghost use Rattle.std.specs.Option.{option_map};

// The longest tables.
pub const LONGEST: usize = 4096;

// How many steps a run may make in all.
pub const MOST_STEPS: u32 = 1_000_000;

// How many depths are kept at a time while the longest term is read: two for each node, and one.
pub(crate) const MOST_DEPTHS: usize = 2 * LONGEST + 1;

#[derive(Clone, Copy)]
pub(crate) struct Held {
    // how long front and back are
    pub(crate) length: usize,
    // how many of front's records are the term
    pub(crate) count: usize,
    // the steps made in all
    pub(crate) steps: u32,
    // the accepted type and profile
    pub(crate) type_number: u16,
    pub(crate) profile: u32,
    ghost within: { count ≤ length },
    ghost bounded: { length ≤ 4096 },
    ghost allowed: { steps ≤ 1000000 },
}

// A run of an accepted rule, or of nothing where the tables did not fit. Start makes it, and close ends it: it cannot be
// copied, so nothing is asked of it after that.
#[derive(Drop)]
pub struct Run {
    pub(crate) held: Option<Held>,
}

impl Run {
    // How many records the term has, or none where the run holds nothing.
    pub fn records(&self) -> Option<usize>
        ensures value { result ≡ option_map (λ h. h.count) self.now.held }
    {
        self.held.map(|held| held.count)
    }

    // How long its tables are, or none where the run holds nothing.
    pub fn length(&self) -> Option<usize>
        ensures value { result ≡ option_map (λ h. h.length) self.now.held }
    {
        self.held.map(|held| held.length)
    }
}
