// What is known of every host: a meaning, which is lawful, and two calls that answer by it and keep it.
ghost use Rattle.std.specs.Prelude.{◌≡◌, ◌<◌, None};
ghost use Rattle.calculus.specs.Meanings.{Meaning, Lawful, largest_asked};

use calculus::answer::Answer;

// The largest number in an answer.
pub const LARGEST_NUMBER: u16 = 255;

// The largest number that a question may be put at.
pub const LARGEST_ASKED: u16 = 4095;

// What answers the questions of a rule. A question and its number are two parameters, as every host of a caller has them. That its
// meaning is kept is said again by each function that is lent a host: a fact of before and after, which no type can hold.
pub trait Host {
    // What the host means: a profile, and an answer or none to each question at each number.
    ghost meaning: { Self → Meaning };

    // The laws of hosts: each `impl` shows that its meaning is lawful.
    ghost lawful: { (x : Self) → Lawful (meaning x) };

    // The shapes of the answers, a hexadecimal digit for each question.
    fn profile(&mut self) -> u32
        ensures value { result ≡ (meaning self.old).profile }
        ensures kept { meaning self.new ≡ meaning self.old };

    // The answer to a question at a number, or none where the profile has no such question or the number is above 4,095.
    fn query(&mut self, question: u16, number: u16) -> Option<Answer>
        ensures value { result ≡ (meaning self.old).answer question number }
        ensures kept { meaning self.new ≡ meaning self.old };
}

// The answers to one question put twice. By the laws both are missing where the number is above 4,095.
pub fn ask_twice<H: Host>(
    host: &mut H,
    question: u16,
    number: u16,
) -> (Option<Answer>, Option<Answer>)
    ensures same { result.0 ≡ result.1 }
    ensures value { result.1 ≡ (H.meaning host.old).answer question number }
    ensures missing { largest_asked < number → result.1 ≡ None }
    ensures kept { H.meaning host.new ≡ H.meaning host.old }
{
    let first = host.query(question, number);
    let second = host.query(question, number);
    (first, second)
}
