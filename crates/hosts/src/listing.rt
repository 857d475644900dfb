// The listing: a host that reads versions from a lent list, by the day.
ghost use Rattle.std.specs.Prelude.{◌≡◌, ◌<◌, ◌≤◌, length, MatchResult};
ghost use Rattle.refusals.specs.declared.Question.TheVariants.{VersionRoom};
ghost use Rattle.calculus.specs.Examples.{empty_listing};
ghost use Rattle.hosts.specs.Made.{in_host};
ghost use Rattle.hosts.specs.Listed.{listed, most_versions, EmptyOnEveryDay};
ghost use Rattle.hosts.specs.ListedLaw.{listed_lawful};

use crate::host::{Host, LARGEST_ASKED};
use crate::reading;
use crate::version::Version;
use calculus::answer::Answer;
use refusals::{Layer, Question, Refusal};

// The most versions of a listing.
pub const MOST_VERSIONS: usize = 200;

#[derive(Drop)]
pub struct Listing<'a> {
    versions: &'a [Version],
    today: u16,
    ghost few: { length versions.now ≤ most_versions },
}

impl<'a> Listing<'a> {
    // A listing without versions.
    pub fn empty() -> Listing<'a>
        ensures meaning { listed result.versions.now result.today ≡ empty_listing }
        ensures every_day { EmptyOnEveryDay }
    {
        Listing {
            versions: &[],
            today: 0,
        }
    }

    // Makes the listing of these versions in place. It puts question 40; a no leaves the listing as it was.
    pub fn make(&mut self, versions: &'a [Version], today: u16) -> Result<(), Refusal>
        ensures call { MatchResult result (λ _. (length versions.now ≤ most_versions) × (self.new.versions.now ≡ versions.now) × (self.new.today ≡ today)) (λ e. (most_versions < length versions.now) × (e ≡ in_host VersionRoom) × (self.new ≡ self.old)) }
    {
        if versions.len() > MOST_VERSIONS {
            return Err(Layer::Host.refuse(Question::VersionRoom));
        }
        *self = Listing { versions, today };
        Ok(())
    }
}

impl<'a> Host for Listing<'a> {
    ghost meaning = { λ x. listed x.versions.now x.today };

    ghost lawful = { λ x. listed_lawful x.versions.now x.today x.few };

    fn profile(&mut self) -> u32 {
        0x4231
    }

    fn query(&mut self, question: u16, number: u16) -> Option<Answer> {
        if number > LARGEST_ASKED {
            return None;
        }
        // (as: it is below 65,536, and try_from would add an error that never comes)
        match question {
            0 => Some(Answer::Number(self.versions.len() as u16)),
            1 => Some(reading::age_of(self.versions, self.today, number)),
            2 => Some(reading::is_gone(self.versions, self.today, number)),
            3 => Some(reading::name_of(self.versions, number)),
            _ => None,
        }
    }
}
