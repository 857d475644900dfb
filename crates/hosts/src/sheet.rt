// The sheet: a host that answers from lent lines, by a profile.
ghost use Rattle.std.specs.Prelude.{◌≡◌, ◌^◌, ◌<◌, ◌≤◌, [], length, MatchOption, MatchResult};
ghost use Rattle.calculus.specs.Meanings.{digit};
ghost use Rattle.hosts.specs.Made.{in_host};
ghost use Rattle.hosts.specs.Lines.{line_for_lem};
ghost use Rattle.hosts.specs.Sheets.{most_lines, sheet, DigitsBelow, LegalBelow, LegalSheet, LineFault, SheetFault, ExactFault};
ghost use Rattle.hosts.specs.SheetLaw.{sheet_lawful};

use crate::host::{Host, LARGEST_ASKED};
use crate::line::{Asked, Line, answer_in_shape, digit_of, is_legal_line, shape_of};
use calculus::answer::Answer;
use refusals::{Layer, Question, Refusal};
use types::keyed::first_with_key;

// The most lines of a sheet.
pub const MOST_LINES: usize = 1024;

#[derive(Drop)]
pub struct Sheet<'a> {
    profile: u32,
    lines: &'a [Line],
    ghost fits: { profile < 2 ^ 32 },
    ghost legal: { ∥ LegalSheet profile lines.now ∥₁ },
}

// The line for a question at a number.
fn line_for(lines: &[Line], asked: &Asked) -> Option<Line>
    ensures value { result ≡ line_for_lem asked.now lines.now }
{
    first_with_key(lines, asked).map(|i| lines[i])
}

// Question 42: the first digit of a profile above 4.
fn high_digit(profile: u32) -> Option<u16>
    ensures first { MatchOption result (DigitsBelow profile 8) (λ k. (k < 8) × DigitsBelow profile k × (4 < digit profile k)) }
{
    (0..8u16).find(|k| digit_of(profile, *k) > 4)
}

// Questions 43 and 44, line by line.
fn line_fault(profile: u32, lines: &[Line]) -> Result<(), Question>
    requires { length lines.now ≤ most_lines }
    ensures first { MatchResult result (λ _. LegalBelow profile lines.now (length lines.now)) (λ q. LineFault profile lines.now q) }
{
    for (i, line) in lines.iter().enumerate() {
        // (as: it is below 65,536, and try_from would add an error that never comes)
        let place = i as u16;
        if !is_legal_line(profile, line) {
            return Err(Question::LineLegal { place });
        }
        if first_with_key(&lines[..i], &Asked::from(line)).is_some() {
            return Err(Question::LineNew { place });
        }
    }
    Ok(())
}

// Questions 41 to 44.
fn sheet_fault(profile: u32, lines: &[Line]) -> Result<(), Question>
    ensures first { MatchResult result (λ _. LegalSheet profile lines.now) (λ q. SheetFault profile lines.now q) }
{
    if lines.len() > MOST_LINES {
        return Err(Question::LineRoom);
    }
    if let Some(place) = high_digit(profile) {
        return Err(Question::ProfileDigit { place });
    }
    line_fault(profile, lines)
}

impl<'a> Sheet<'a> {
    // A sheet without questions and lines.
    pub fn empty() -> Sheet<'a>
        ensures made { (result.profile ≡ 0) × (result.lines.now ≡ []) }
    {
        Sheet {
            profile: 0,
            lines: &[],
        }
    }

    // Makes the sheet of this profile and these lines in place. It puts questions 41 to 44; a no leaves the sheet as it was.
    pub fn make(&mut self, profile: u32, lines: &'a [Line]) -> Result<(), Refusal>
        ensures call { MatchResult result (λ _. LegalSheet profile lines.now × (self.new.profile ≡ profile) × (self.new.lines.now ≡ lines.now)) (λ e. ((q : Question) × (e ≡ in_host q) × SheetFault profile lines.now q) × (self.new ≡ self.old)) }
        ensures exact { ExactFault profile lines.now }
    {
        sheet_fault(profile, lines).map_err(|question| Layer::Host.refuse(question))?;
        *self = Sheet { profile, lines };
        Ok(())
    }
}

impl<'a> Host for Sheet<'a> {
    ghost meaning = { λ x. sheet x.profile x.lines.now };

    ghost lawful = { λ x. sheet_lawful x.profile x.lines.now x.fits x.legal };

    fn profile(&mut self) -> u32 {
        self.profile
    }

    fn query(&mut self, question: u16, number: u16) -> Option<Answer> {
        if number > LARGEST_ASKED {
            return None;
        }
        let shape = shape_of(self.profile, question)?;
        let line = line_for(self.lines, &Asked { question, number });
        let (a, b) = line.map_or((0, 0), |line| (line.a, line.b));
        Some(answer_in_shape(shape, a, b))
    }
}
