//! Steps of the whole cluster.
ghost use Rattle.std.specs.Prelude.{◌≡◌, ◌≢◌, ◌≤◌, IfOk, IfErr, false};
ghost use Rattle.jd_model.specs.declared.event.Event.TheVariants.{Emit, Deliver, Run};
ghost use Rattle.jd_model.specs.World as spec;
ghost use Rattle.jd_model.specs.World.{moves};
ghost use Rattle.jd_world.specs.declared.step_fault.StepFault.TheVariants.{Spent, Stranger};
ghost use Rattle.jd_world.specs.Outside.{IsSpentBy, LeavesCluster};
ghost use Rattle.jd_world.specs.World as whole;
ghost use Rattle.jd_world.specs.World.{whole_of, net_of, whole_first, printed, WorldTries, WorldSteps};

use crate::outside::Outside;
use crate::process;
use crate::step::broken_by;
use crate::step_fault::StepFault;
use crate::world::World;
use jd_model::{Effect, Event, Mark};
use jd_node::Node;
use jd_value::{OutOfMemory, Program, Value};
use std::alloc::Global;

/// Whether it is an event of a worker, or of a link to one.
fn is_outside(event: &Event) -> bool
    ensures { result ≡ spec.is_outside event.now }
{
    match event {
        Event::Emit(process, _) | Event::Deliver(_, process) | Event::Run(process) => *process != 1,
    }
}

/// How many events it counts: what process 1 sends and runs isn't counted.
fn counts(event: &Event) -> u64
    ensures counts { result ≡ whole.counts event.now }
    ensures small { result ≤ 1 }
{
    match event {
        Event::Emit(1, _) | Event::Run(1) => 0,
        Event::Emit(_, _) | Event::Deliver(_, _) | Event::Run(_) => 1,
    }
}

impl World {
    /// The cluster of the program with so many workers, in which nothing has happened.
    pub fn start(alloc: Global, program: &Program, workers: u32) -> Result<World, OutOfMemory>
        requires { workers ≤ 16 }
        ensures first { IfOk result (λ w. whole_of w ≡ whole_first program.now workers) }
        ensures count { IfOk result (λ w. w.outside.workers.count ≡ workers) }
    {
        match Node::with_main(alloc, program, workers) {
            Ok(hub) => Ok(World {
                hub,
                outside: Outside::new(alloc, workers),
            }),
            Err(_) => Err(OutOfMemory),
        }
    }

    /// The effects so far, in their order.
    pub fn marks(&self) -> &[Mark]
        ensures { result.now ≡ (whole_of self.now).marks }
    {
        self.outside.marks.as_slice()
    }

    /// How many events were counted, those of workers and links.
    pub fn events(&self) -> u64
        ensures { result ≡ (whole_of self.now).outside.events }
    {
        self.outside.events
    }

    /// The oldest message of process 1 to that process leaves.
    fn emit(&mut self, to: u32) -> Result<(), StepFault>
        ensures tries { WorldTries (moves (net_of self.old) (Emit 1 to)) (whole_of self.old) (whole_of self.new) result }
        ensures spent { IfErr result (λ e. e ≡ Spent → IsSpentBy (whole_of self.old) (Emit 1 to)) }
        ensures stranger { IfErr result (λ e. e ≡ Stranger → LeavesCluster self.old.outside.workers.count (Emit 1 to)) }
        ensures events { self.new.outside.events ≡ self.old.outside.events }
        ensures count { self.new.outside.workers.count ≡ self.old.outside.workers.count }
    {
        if !self.outside.has(to) {
            return match self.hub.has_mail(to) {
                true => Err(StepFault::Stranger),
                false => Err(StepFault::NotPossible),
            };
        }
        let msg = match self.hub.emit(to) {
            None => return Err(StepFault::NotPossible),
            Some(msg) => msg,
        };
        match self.outside.send(1, to, msg) {
            Ok(()) => Ok(()),
            Err(_) => Err(StepFault::OutOfMemory),
        }
    }

    /// The first message on the link from that process to process 1 arrives.
    fn arrive(&mut self, from: u32) -> Result<(), StepFault>
        ensures tries { WorldTries (moves (net_of self.old) (Deliver from 1)) (whole_of self.old) (whole_of self.new) result }
        ensures spent { IfErr result (λ e. e ≡ Spent → IsSpentBy (whole_of self.old) (Deliver from 1)) }
        ensures stranger { IfErr result (λ e. e ≡ Stranger → LeavesCluster self.old.outside.workers.count (Deliver from 1)) }
        ensures events { self.new.outside.events ≡ self.old.outside.events }
        ensures count { self.new.outside.workers.count ≡ self.old.outside.workers.count }
    {
        let outside = &mut self.outside;
        match process::arrive(
            &mut self.hub,
            &mut outside.to_main,
            1,
            from,
            &mut outside.marks,
        ) {
            Ok(true) => Ok(()),
            Ok(false) => Err(StepFault::NotPossible),
            Err(fault) => Err(broken_by(fault)),
        }
    }

    /// The oldest task of process 1 that can go on goes on.
    fn go_on(&mut self) -> Result<(), StepFault>
        ensures tries { WorldTries (moves (net_of self.old) (Run 1)) (whole_of self.old) (whole_of self.new) result }
        ensures spent { IfErr result (λ e. e ≡ Spent → IsSpentBy (whole_of self.old) (Run 1)) }
        ensures stranger { IfErr result (λ e. e ≡ Stranger → LeavesCluster self.old.outside.workers.count (Run 1)) }
        ensures events { self.new.outside.events ≡ self.old.outside.events }
        ensures count { self.new.outside.workers.count ≡ self.old.outside.workers.count }
    {
        match process::go_on(&mut self.hub, 1, &mut self.outside.marks) {
            Ok(true) => Ok(()),
            Ok(false) => Err(StepFault::NotPossible),
            Err(fault) => Err(broken_by(fault)),
        }
    }

    /// An event of process 1, or of a link to it.
    fn go_main(&mut self, event: &Event) -> Result<(), StepFault>
        requires { spec.is_outside event.now ≡ false }
        ensures tries { WorldTries (moves (net_of self.old) event.now) (whole_of self.old) (whole_of self.new) result }
        ensures spent { IfErr result (λ e. e ≡ Spent → IsSpentBy (whole_of self.old) event.now) }
        ensures stranger { IfErr result (λ e. e ≡ Stranger → LeavesCluster self.old.outside.workers.count event.now) }
        ensures events { self.new.outside.events ≡ self.old.outside.events }
        ensures count { self.new.outside.workers.count ≡ self.old.outside.workers.count }
    {
        match event {
            Event::Emit(_, to) => self.emit(*to),
            Event::Deliver(from, _) => self.arrive(*from),
            Event::Run(_) => self.go_on(),
        }
    }

    /// An event, but that it isn't counted.
    fn go(&mut self, event: &Event) -> Result<(), StepFault>
        ensures tries { WorldTries (moves (net_of self.old) event.now) (whole_of self.old) (whole_of self.new) result }
        ensures spent { IfErr result (λ e. e ≡ Spent → IsSpentBy (whole_of self.old) event.now) }
        ensures stranger { IfErr result (λ e. e ≡ Stranger → LeavesCluster self.old.outside.workers.count event.now) }
        ensures events { self.new.outside.events ≡ self.old.outside.events }
        ensures count { self.new.outside.workers.count ≡ self.old.outside.workers.count }
    {
        if is_outside(event) {
            self.outside.go(event)
        } else {
            self.go_main(event)
        }
    }

    /// Main's line is printed, and main gets its answer.
    fn print(&mut self) -> Result<(), StepFault>
        ensures tries { WorldTries (printed (net_of self.old)) (whole_of self.old) (whole_of self.new) result }
        ensures cause { IfErr result (λ e. (e ≢ Spent) × (e ≢ Stranger)) }
        ensures count { self.new.outside.workers.count ≡ self.old.outside.workers.count }
    {
        if self.hub.main_line().is_none() {
            return Err(StepFault::NotPossible);
        }
        match self.hub.main_answer(Ok(Value::Nothing)) {
            Ok(()) => {}
            Err(_) => return Err(StepFault::OutOfMemory),
        }
        let mark = Mark {
            effect: Effect::Printed,
            by: 1,
        };
        match self.outside.marks.push(mark) {
            Ok(()) => Ok(()),
            Err(_) => Err(StepFault::OutOfMemory),
        }
    }
}

/// An event of any process. `NotPossible` comes exactly where the definition doesn't allow the event, `Limit` exactly
/// where the record has 1,000,000 marks or the world made 10,000,000 events, and both leave the world as it was. `Spent`
/// comes only where the event is a step that would have to raise a number of its process above the greatest, and
/// `Stranger` only where the event's message goes to a process that the cluster doesn't have.
pub fn world_step(world: &mut World, event: &Event) -> Result<(), StepFault>
    ensures steps { WorldSteps (moves (net_of world.old) event.now) (whole.counts event.now) (whole_of world.old) (whole_of world.new) result }
    ensures spent { IfErr result (λ e. e ≡ Spent → IsSpentBy (whole_of world.old) event.now) }
    ensures stranger { IfErr result (λ e. e ≡ Stranger → LeavesCluster world.old.outside.workers.count event.now) }
    ensures count { world.new.outside.workers.count ≡ world.old.outside.workers.count }
{
    if world.outside.is_full() {
        return Err(StepFault::Limit);
    }
    match world.go(event) {
        Ok(()) => {}
        Err(fault) => return Err(fault),
    }
    world.outside.events += counts(event);
    Ok(())
}

/// Main's line is printed: its mark is made, and main gets its answer. `NotPossible` comes exactly where main asks no
/// line, `Limit` as that of `world_step`, and both leave the world as it was. `Spent` and `Stranger` don't come.
pub fn world_print(world: &mut World) -> Result<(), StepFault>
    ensures steps { WorldSteps (printed (net_of world.old)) 0 (whole_of world.old) (whole_of world.new) result }
    ensures cause { IfErr result (λ e. (e ≢ Spent) × (e ≢ Stranger)) }
    ensures count { world.new.outside.workers.count ≡ world.old.outside.workers.count }
{
    if world.outside.is_full() {
        return Err(StepFault::Limit);
    }
    world.print()
}
