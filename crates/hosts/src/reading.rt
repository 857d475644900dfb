// What a listing answers of one version, or of a version that it does not have. List, day and number are parameters, and
// these are no methods of a listing, since they promise this of lists of any length. Each looks the version up itself, as
// each answers another value without one, and by let-else, whose form is fixed.
ghost use Rattle.std.specs.Prelude.{◌≡◌};
ghost use Rattle.std.specs.List.{slice_get};
ghost use Rattle.hosts.specs.Listed.{version_age, version_gone, version_name};

use crate::version::Version;
use calculus::answer::Answer;

// The days since a version was published, 0 to 255.
pub fn age_of(versions: &[Version], today: u16, number: u16) -> Answer
    ensures value { result ≡ version_age today (slice_get versions.now number) }
{
    let Some(version) = versions.get(usize::from(number)) else {
        return Answer::Maybe(None);
    };
    Answer::Maybe(Some(version.age(today)))
}

// Whether a version is withdrawn by today.
pub fn is_gone(versions: &[Version], today: u16, number: u16) -> Answer
    ensures value { result ≡ version_gone today (slice_get versions.now number) }
{
    let Some(version) = versions.get(usize::from(number)) else {
        return Answer::Flag(true);
    };
    Answer::Flag(version.is_gone(today))
}

// A version's line and patch.
pub fn name_of(versions: &[Version], number: u16) -> Answer
    ensures value { result ≡ version_name (slice_get versions.now number) }
{
    let Some(version) = versions.get(usize::from(number)) else {
        return Answer::Pair(0, 0);
    };
    Answer::Pair(u16::from(version.line), u16::from(version.patch))
}
