// The host of a script, as the data that it is made from.
ghost use Rattle.console.specs.AnyHost.{meaning_of, lawful_of};

use calculus::answer::Answer;
use hosts::host::Host;
use hosts::line::Line;
use hosts::listing::Listing;
use hosts::sheet::Sheet;
use hosts::version::Version;
use refusals::Refusal;
use std::alloc::Global;
use std::fmt;

// A host of either kind. (An enum and no dyn value, which could not be handed out.)
#[derive(Drop)]
pub enum AnyHost<'a> {
    Listing(Listing<'a>),
    Sheet(Sheet<'a>),
}

impl<'a> Host for AnyHost<'a> {
    ghost meaning = { meaning_of };

    ghost lawful = { lawful_of };

    fn profile(&mut self) -> u32 {
        match self {
            AnyHost::Listing(host) => host.profile(),
            AnyHost::Sheet(host) => host.profile(),
        }
    }

    fn query(&mut self, question: u16, number: u16) -> Option<Answer> {
        match self {
            AnyHost::Listing(host) => host.query(question, number),
            AnyHost::Sheet(host) => host.query(question, number),
        }
    }
}

// What a host is made from. A host borrows its list, so a script keeps this and makes the host for each question: an enum,
// and no boxed host.
#[derive(Drop)]
pub enum HostData {
    Listing { today: u16, versions: Vec<Version> },
    Sheet { profile: u32, lines: Vec<Line> },
}

impl HostData {
    // A listing without versions.
    pub fn new(heap: Global) -> HostData {
        HostData::Listing {
            today: 0,
            versions: Vec::new(heap),
        }
    }

    // The host made from it, and whether it could be made: where not, the host has no versions or lines.
    fn make(&self) -> (AnyHost<'_>, Result<(), Refusal>) {
        match self {
            HostData::Listing { today, versions } => {
                let mut host = Listing::empty();
                let made = host.make(versions.as_slice(), *today);
                (AnyHost::Listing(host), made)
            }
            HostData::Sheet { profile, lines } => {
                let mut host = Sheet::empty();
                let made = host.make(*profile, lines.as_slice());
                (AnyHost::Sheet(host), made)
            }
        }
    }

    // Whether a host can be made from it.
    pub fn made(&self) -> Result<(), Refusal> {
        let (_, made) = self.make();
        made
    }

    pub fn profile(&self) -> u32 {
        let (mut host, _) = self.make();
        host.profile()
    }

    pub fn ask(&self, question: u16, number: u16) -> Option<Answer> {
        let (mut host, _) = self.make();
        host.query(question, number)
    }
}

// Its kind, and how many versions or lines it has.
impl fmt::Display for HostData {
    fn fmt<W: fmt::Write>(&self, f: &mut fmt::Formatter<W>) -> fmt::Result {
        match self {
            HostData::Listing { versions, .. } => write!(f, "listing {}", versions.len()),
            HostData::Sheet { lines, .. } => write!(f, "sheet {}", lines.len()),
        }
    }
}
