// The checker as a machine: it goes through the nodes once, and keeps the unfinished ones as frames in lent numbers.
ghost use Rattle.std.specs.Prelude.{◌≡◌, ◌<◌, ◌≤◌, List, length, take, IfOk};
ghost use Rattle.calculus.specs.declared.entry.Entry.{Entry as Row};
ghost use Rattle.calculus.specs.Syntax.{Term, flat};
ghost use Rattle.checker.specs.Contexts.{unbind};
ghost use Rattle.checker.specs.Judging.{judge_term};
ghost use Rattle.checker.specs.Machine.{Input, Keeps, Same, node_at, reached, take_by, reaction_of, site_of, waiting, state_of, state_after, step_after, outcome_of, ReachReady, TakeReady, Ready, stepped};

use crate::binders::Binders;
use crate::frame::{Awaits, Frame, Stack};
use crate::rules::{Arrival, Finished, Reaction, Site};
use calculus::entry::Entry;
use calculus::node::Node;
use refusals::Question;
use std::ops::ControlFlow;
use types::table::add;

// The rule and the profile, the frames and the binders; the place of the next node, how many entries the type table has, and
// the node that has just been finished, if any.
// Each has a lifetime of its own, since a function that makes a machine gets no proof where they share one. The type table is
// lent to each turn and stands in no struct with its count, which is no plainer: a caller would know the table after such a
// struct only if every method had a clause that its reference is the same, and the struct a Drop by hand.
#[derive(Drop)]
pub struct Machine<'n, 's, 'b> {
    nodes: &'n [Node],
    profile: u32,
    stack: Stack<'s>,
    binders: Binders<'b>,
    at: u16,
    count: usize,
    done: Option<Finished>,
}

impl<'n, 's, 'b> Machine<'n, 's, 'b> {
    // The node at a place.
    fn site(&self, place: u16) -> Site
        requires within { place < length self.now.nodes.now }
        ensures value { result ≡ site_of self.now place }
    {
        Site {
            profile: self.profile,
            node: self.nodes[usize::from(place)],
            place,
        }
    }

    // The node at a place is to wait for this child, under a binder of this type if there is one.
    fn wait(&mut self, place: u16, awaits: Awaits, binder: Option<u16>)
        requires room { length self.old.stack.frames < self.old.stack.room }
        requires slot { length self.old.binders.types < self.old.binders.room }
        ensures after { self.new ≡ waiting self.old place awaits binder }
    {
        self.stack.push(Frame {
            place,
            awaits,
            bound: binder.is_some(),
        });
        self.binders.enter(binder);
        self.done = None;
    }

    // The next node is reached.
    fn descend(&mut self) -> Result<(), Question>
        requires ready { ReachReady self.old }
        ensures step { (T : List Row) → state_after result self.new T ≡ reached self.old.profile self.old.nodes.now self.old.at self.old.stack.frames self.old.binders.types T }
        ensures same { Same self.old self.new }
        ensures count { self.new.count ≡ self.old.count }
    {
        let place = self.at;
        let site = self.site(place);
        let kind = site.node.kind;
        let arrival = site.reach(&self.binders)?;
        self.at = place + 1;
        match arrival {
            Arrival::Known(ty) => {
                self.done = Some(Finished { ty, kind });
                Ok(())
            }
            Arrival::Waits(binder) => {
                self.wait(place, Awaits::First, binder);
                Ok(())
            }
        }
    }

    // The node of this frame, which was taken off the stack, takes its finished child.
    fn ascend(&mut self, types: &mut [Entry], frame: Frame, child: Finished) -> Result<(), Question>
        requires ready { TakeReady self.old types.old frame child }
        ensures step { state_after result self.new (take self.new.count types.new) ≡ take_by self.old.at frame (node_at self.old.nodes.now frame.place).kind self.old.stack.frames (unbind frame.bound self.old.binders.types) (take self.old.count types.old) (reaction_of self.old.profile self.old.nodes.now frame (take self.old.count types.old) child) }
        ensures same { Same self.old self.new }
        ensures keeps { Keeps self.old.count self.new.count types.old types.new }
    {
        let place = frame.place;
        let site = self.site(place);
        let kind = site.node.kind;
        let known = &types[0..self.count];
        let reaction = site.take_child(frame.awaits, known, child)?;
        self.binders.leave(frame.bound);
        match reaction {
            Reaction::Done(ty) => {
                self.done = Some(Finished { ty, kind });
                Ok(())
            }
            Reaction::Build(entry) => {
                let (ty, grown) = add(types, self.count, entry);
                self.count = grown;
                self.done = Some(Finished { ty, kind });
                Ok(())
            }
            Reaction::Next(awaits, binder) => {
                self.wait(place, awaits, binder);
                Ok(())
            }
        }
    }

    // One turn: on, or to the end with the number of the rule's type.
    fn turn(&mut self, types: &mut [Entry]) -> Result<ControlFlow<u16>, Question>
        requires ready { Ready self.old types.old }
        ensures step { step_after result self.new (take self.new.count types.new) ≡ stepped self.old.profile self.old.nodes.now (state_of self.old (take self.old.count types.old)) }
        ensures same { Same self.old self.new }
        ensures keeps { Keeps self.old.count self.new.count types.old types.new }
    {
        match self.done {
            None => self.descend().map(ControlFlow::Continue),
            Some(child) => match self.stack.pop() {
                None => Ok(ControlFlow::Break(child.ty)),
                Some(frame) => self.ascend(types, frame, child).map(ControlFlow::Continue),
            },
        }
    }
}

// The type of the rule and the count of entries by then, or the first question of 20 to 24 that is answered no. (The lists are
// lent one by one, as check is lent them.)
pub fn judge_nodes(
    nodes: &[Node],
    profile: u32,
    types: &mut [Entry],
    count: usize,
    scratch: &mut [u32],
) -> Result<(u16, usize), Question>
    requires ready { Input nodes.now types.old count (length scratch.old) }
    ensures judged { (t : Term) → flat t ≡ nodes.now → outcome_of result types.new ≡ judge_term profile t (take count types.old) }
    ensures front { take count types.new ≡ take count types.old }
    ensures low { IfOk result (λ a. count ≤ a.1) }
    ensures within { IfOk result (λ a. a.1 ≤ length types.new) }
{
    let (frames, binders) = scratch.split_at_mut(3 * nodes.len());
    let stack = Stack::new(frames);
    let binders = Binders::new(binders);
    let mut machine = Machine {
        nodes,
        profile,
        stack,
        binders,
        at: 0,
        count,
        done: None,
    };
    'turns: loop {
        if let ControlFlow::Break(ty) = machine.turn(types)? {
            return Ok((ty, machine.count));
        }
    }
}
