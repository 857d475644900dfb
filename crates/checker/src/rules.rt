// The typing rules, one node at a time: what a node does when it is reached, and what it does with a finished child.
ghost use Rattle.std.specs.Prelude.{◌≡◌, ◌<◌, length};
ghost use Rattle.std.specs.Option.{ok_or};
ghost use Rattle.checker.specs.Awaiting.{kept_of};
ghost use Rattle.checker.specs.Rules.{answer_number_lem, answer_type, answered_by, first, second, third, react, arrive};
ghost use Rattle.refusals.specs.declared.Question.TheVariants.{QuestionKnown};

use crate::binders::Binders;
use crate::frame::Awaits;
use calculus::answer::Shape;
use calculus::entry::Entry;
use calculus::form::Form;
use calculus::kind::Kind;
use calculus::node::Node;
use hosts::line::shape_of;
use refusals::Question;

// How a node goes on when it is reached.
#[derive(Clone, Copy)]
pub enum Arrival {
    // its type is known
    Known(u16),
    // it waits for its first child, under a binder of this type if there is one
    Waits(Option<u16>),
}

// How a node goes on with a finished child.
#[derive(Clone, Copy)]
pub enum Reaction {
    // it has this type
    Done(u16),
    // it has the type of this entry, which is added to the table if it is missing
    Build(Entry),
    // it waits for its next child, under a binder of this type if there is one
    Next(Awaits, Option<u16>),
}

// A finished node: the number of its type, and its kind.
#[derive(Clone, Copy)]
pub struct Finished {
    pub ty: u16,
    pub kind: Kind,
}

// A node at its place, under a host's profile.
#[derive(Clone, Copy)]
pub struct Site {
    pub profile: u32,
    pub node: Node,
    pub place: u16,
}

// The number of the type of answers of this shape.
fn type_of(shape: Shape) -> u16
    ensures value { result ≡ answer_number_lem shape }
{
    match shape {
        Shape::Number => 0,
        Shape::Flag => 3,
        Shape::Maybe => 4,
        Shape::Pair => 5,
    }
}

// The number of the type of a question's answers, or none where the profile has no such question.
pub fn answer_number(profile: u32, question: u16) -> Option<u16>
    ensures value { result ≡ answer_type profile question }
{
    shape_of(profile, question).map(type_of)
}

impl Site {
    // Of a query: the number of the type of its answers.
    fn answers(self) -> Result<u16, Question>
        ensures value { result ≡ ok_or (answer_type self.profile self.node.number) (QuestionKnown self.place) }
    {
        answer_number(self.profile, self.node.number).ok_or(Question::QuestionKnown {
            place: self.place,
        })
    }

    // What the first child makes of the node, where its type has the number `ty` and is `entry`: question 22.
    fn first_child(self, ty: u16, entry: Entry) -> Result<Reaction, Question>
        ensures value { result ≡ first self.profile self.node.kind self.node.number self.place ty entry }
    {
        let number = self.node.number;
        match self.node.kind {
            Kind::Lambda => Ok(Reaction::Build(Entry {
                form: Form::Function,
                left: number,
                right: ty,
            })),
            Kind::Inl => Ok(Reaction::Build(Entry {
                form: Form::Sum,
                left: ty,
                right: number,
            })),
            Kind::Inr => Ok(Reaction::Build(Entry {
                form: Form::Sum,
                left: number,
                right: ty,
            })),
            Kind::Pair => Ok(Reaction::Next(Awaits::Second(ty), None)),
            Kind::Successor if entry.form == Form::Nat => Ok(Reaction::Done(0)),
            Kind::Rec if entry.form == Form::Nat => Ok(Reaction::Next(Awaits::Second(ty), None)),
            Kind::Query if entry.form == Form::Nat => self.answers().map(Reaction::Done),
            Kind::Abort if entry.form == Form::Void => Ok(Reaction::Done(number)),
            Kind::Apply if entry.form == Form::Function => {
                Ok(Reaction::Next(Awaits::Second(ty), None))
            }
            Kind::Fst if entry.form == Form::Product => Ok(Reaction::Done(entry.left)),
            Kind::Snd if entry.form == Form::Product => Ok(Reaction::Done(entry.right)),
            Kind::Case if entry.form == Form::Sum => Ok(Reaction::Next(
                Awaits::Second(ty),
                Some(entry.left),
            )),
            _ => Err(Question::FirstChild { place: self.place }),
        }
    }

    // What the second child makes of the node, where its type has the number `ty`; `entry` is the kept type, that of the first
    // child: question 23.
    fn second_child(self, kept: u16, ty: u16, entry: Entry) -> Result<Reaction, Question>
        ensures value { result ≡ second self.node.kind self.place kept ty entry }
    {
        match self.node.kind {
            Kind::Pair => Ok(Reaction::Build(Entry {
                form: Form::Product,
                left: kept,
                right: ty,
            })),
            Kind::Rec => Ok(Reaction::Next(Awaits::Third(ty), Some(0))),
            Kind::Case => Ok(Reaction::Next(Awaits::Third(ty), Some(entry.right))),
            Kind::Apply if ty == entry.left => Ok(Reaction::Done(entry.right)),
            _ => Err(Question::LaterChild {
                place: self.place,
                child: 2,
            }),
        }
    }

    // What the third child makes of the node, where its type is `entry`; the kept type is that of the second child: questions
    // 23 and 24.
    fn third_child(self, kept: u16, child: Finished, entry: Entry) -> Result<Reaction, Question>
        ensures value { result ≡ third self.node.kind self.place kept child.ty entry child.kind }
    {
        let steps = entry.form == Form::Function && entry.left == kept && entry.right == kept;
        match self.node.kind {
            Kind::Rec if steps && child.kind == Kind::Lambda => Ok(Reaction::Done(kept)),
            Kind::Rec if steps => Err(Question::StepFunction { place: self.place }),
            Kind::Case if child.ty == kept => Ok(Reaction::Done(kept)),
            _ => Err(Question::LaterChild {
                place: self.place,
                child: 3,
            }),
        }
    }

    // What the awaited child makes of the node.
    pub fn take_child(
        self,
        awaits: Awaits,
        types: &[Entry],
        child: Finished,
    ) -> Result<Reaction, Question>
        requires known { child.ty < length types.now }
        requires kept { kept_of awaits < length types.now }
        ensures value { result ≡ react self.profile self.node.kind self.node.number self.place awaits types.now child.ty child.kind }
    {
        match (awaits, types[usize::from(child.ty)]) {
            (Awaits::First, entry) => self.first_child(child.ty, entry),
            (Awaits::Second(kept), _) => {
                self.second_child(kept, child.ty, types[usize::from(kept)])
            }
            (Awaits::Third(kept), entry) => self.third_child(kept, child, entry),
        }
    }

    // What is done on reaching the node under these binders: questions 20 and 21.
    pub fn reach(self, binders: &Binders) -> Result<Arrival, Question>
        ensures value { result ≡ arrive self.profile self.node.kind self.node.number self.place binders.now.types }
    {
        match self.node.kind {
            Kind::Variable => binders
                .get(self.node.number)
                .map(Arrival::Known)
                .ok_or(Question::IndexBound { place: self.place }),
            Kind::Zero => Ok(Arrival::Known(0)),
            Kind::Triv => Ok(Arrival::Known(1)),
            Kind::Lambda => Ok(Arrival::Waits(Some(self.node.number))),
            Kind::Query => self.answers().map(|_| Arrival::Waits(None)),
            _ => Ok(Arrival::Waits(None)),
        }
    }
}
