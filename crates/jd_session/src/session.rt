//! The session: the node of process 1, driven over a fabric.
ghost use Rattle.std.specs.Prelude.{◌≡◌, ◌≢◌, ◌<◌, ◌≤◌, ◌+◌, ℕ, List, [], ◌∷◌, ◌++◌, Option, Some, None, IfOk, IfErr, OnOk, IfSome, IfNone, IsSome, is_some, option_map, true, false};
ghost use Rattle.jd_value.specs.declared.tree.Program.{Program as TheProgram};
ghost use Rattle.jd_model.specs.declared.start.Start.{Start as TheStart};
ghost use Rattle.jd_model.specs.Machine.{line, ending_of};
ghost use Rattle.jd_model.specs.Node.{main_node, main_line, ran};
ghost use Rattle.jd_node.specs.View.{node_of, id_of};
ghost use Rattle.jd_session.specs.Headline.{IsBegunWith, IsJoined, Leaves, HasStepCause, HasEnded, IsIdle, IsArriving, work_left};
ghost use Rattle.jd_session.specs.Stops.{stopped_by_node};
ghost use Rattle.jd_session.specs.declared.stop.Step.TheVariants.{Went, Needs};
ghost use Rattle.jd_session.specs.declared.stop.Stop.TheVariants.{OutOfMemory};

use crate::record::tell_all;
use crate::stop::{Step, Stop, stop_of};
use jd_model::{Effect, Ending, Mark, Start};
use jd_node::{Node, NodeFault};
use jd_source::{Sink, write_whole};
use jd_task::Msg;
use jd_value::{Program, Txt, Value, print_value};
use jd_world::Fabric;
use std::alloc::Global;

/// The run of process 1.
#[derive(Drop)]
pub struct Session {
    hub: Node,
    workers: u32,
    ghost few: { workers ≤ 16 },
}

fn stop_of_node(fault: NodeFault) -> Stop
    ensures { result ≡ stopped_by_node fault }
{
    match fault {
        NodeFault::Limit => Stop::Limit,
        NodeFault::OutOfMemory => Stop::OutOfMemory,
    }
}

/// The bytes of a line, with its line feed.
fn line_bytes(alloc: Global, values: &[Value]) -> Result<Txt, Stop>
    ensures text { IfOk result (λ text. text ≡ line values.now ++ 10 ∷ []) }
    ensures memory { IfErr result (λ e. e ≡ OutOfMemory) }
{
    let mut text = Txt::new(alloc);
    for value in values {
        match print_value(value, &mut text) {
            Ok(()) => {}
            Err(_) => return Err(Stop::OutOfMemory),
        }
    }
    match text.push_byte(b'\n') {
        Ok(()) => Ok(text),
        Err(_) => Err(Stop::OutOfMemory),
    }
}

impl Session {
    /// The session of a program, in which nothing has happened.
    pub fn start(alloc: Global, program: &Program, start: &Start) -> Result<Session, Stop>
        requires { start.now.workers ≤ 16 }
        ensures hub { IfOk result (λ s. node_of s.hub ≡ main_node program.now start.now.workers) }
        ensures process { IfOk result (λ s. id_of s.hub ≡ 1) }
        ensures workers { IfOk result (λ s. s.workers ≡ start.now.workers) }
        ensures memory { IfErr result (λ e. e ≡ OutOfMemory) }
    {
        match Node::with_main(alloc, program, start.workers) {
            Ok(hub) => Ok(Session {
                hub,
                workers: start.workers,
            }),
            Err(_) => Err(Stop::OutOfMemory),
        }
    }

    /// The first worker for which a message is ready to leave.
    fn next_mail(&self) -> Option<u32>
        ensures some { IfSome result (λ q. (2 ≤ q) × (q ≤ self.now.workers + 1) × ((node_of self.now.hub).outbox q ≢ [])) }
        ensures none { IfNone result ((q : ℕ) → 2 ≤ q → q ≤ self.now.workers + 1 → (node_of self.now.hub).outbox q ≡ []) }
    {
        for worker in 0..self.workers {
            let to = worker + 2;
            if self.hub.has_mail(to) {
                return Some(to);
            }
        }
        None
    }

    /// The oldest message to that worker leaves.
    #[tactic(auto, using(crate::proofs::Kept::kept_sent, crate::proofs::Kept::kept_unsent, crate::proofs::Kept::falls_sent))]
    fn send_next<F: Fabric>(&mut self, to: u32, fabric: &mut F) -> Result<(), Stop>
        requires begun { IsBegunWith (F.begun fabric.old) self.old.workers }
        requires worker { (2 ≤ to) × (to ≤ self.old.workers + 1) }
        requires mail { (node_of self.old.hub).outbox to ≢ [] }
        ensures kept { (p : TheProgram) (st : TheStart) (old new : Option (List ℕ)) → IsJoined p st (node_of self.old.hub) (F.told fabric.old) old new → Leaves p st result (node_of self.new.hub) (F.told fabric.new) old new }
        ensures workers { self.new.workers ≡ self.old.workers }
        ensures process { id_of self.new.hub ≡ id_of self.old.hub }
        ensures begun { F.begun fabric.new ≡ F.begun fabric.old }
        ensures tells { is_some (F.told fabric.new) ≡ is_some (F.told fabric.old) }
        ensures falls { OnOk result (IsSome (F.told fabric.old) → work_left (node_of self.new.hub) self.old.workers (F.told fabric.new) < work_left (node_of self.old.hub) self.old.workers (F.told fabric.old)) }
        ensures cause { HasStepCause 0 0 (F.faults fabric.old) (F.faults fabric.new) (F.limits fabric.old) (F.limits fabric.new) (node_of self.old.hub) (F.told fabric.new) result }
    {
        match self.hub.emit(to) {
            None => Ok(()),
            Some(msg) => match fabric.send(to, msg) {
                Ok(()) => Ok(()),
                Err(fault) => Err(stop_of(fault)),
            },
        }
    }

    /// The oldest task that can go on goes on. False where there is none.
    #[tactic(auto, using(crate::proofs::Kept::none_by, crate::proofs::Kept::kept_spent, crate::proofs::Kept::kept_still, crate::proofs::Kept::run_spent))]
    fn run_next<F: Fabric>(&mut self, fabric: &mut F) -> Result<bool, Stop>
        requires running { (node_of self.old.hub).main_end ≡ None }
        requires process { id_of self.old.hub ≡ 1 }
        ensures kept { (p : TheProgram) (st : TheStart) (old new : Option (List ℕ)) → IsJoined p st (node_of self.old.hub) (F.told fabric.old) old new → Leaves p st result (node_of self.new.hub) (F.told fabric.new) old new }
        ensures none { IfOk result (λ went. went ≡ false → (ran 1 (node_of self.old.hub) (node_of self.old.hub).ready ≡ None) × (node_of self.new.hub ≡ node_of self.old.hub) × (F.told fabric.new ≡ F.told fabric.old)) }
        ensures workers { self.new.workers ≡ self.old.workers }
        ensures process { id_of self.new.hub ≡ 1 }
        ensures begun { F.begun fabric.new ≡ F.begun fabric.old }
        ensures tells { is_some (F.told fabric.new) ≡ is_some (F.told fabric.old) }
        ensures falls { IfOk result (λ went. went ≡ true → IsSome (F.told fabric.old) → work_left (node_of self.new.hub) self.old.workers (F.told fabric.new) < work_left (node_of self.old.hub) self.old.workers (F.told fabric.old)) }
        ensures cause { HasStepCause 0 0 (F.faults fabric.old) (F.faults fabric.new) (F.limits fabric.old) (F.limits fabric.new) (node_of self.old.hub) (F.told fabric.new) result }
    {
        match self.hub.go_on() {
            Ok(true) => {}
            Ok(false) => return Ok(false),
            Err(fault) => return Err(stop_of_node(fault)),
        }
        match tell_all(fabric, self.hub.effects()) {
            Ok(()) => Ok(true),
            Err(fault) => Err(stop_of(fault)),
        }
    }

    /// Main's line is printed: its bytes are made, then it is told, then it is written, then main has its answer.
    #[tactic(auto, using(crate::proofs::Kept::kept_unsent))]
    fn print<K: Sink, F: Fabric>(
        &mut self,
        alloc: Global,
        out: &mut K,
        fabric: &mut F,
    ) -> Result<(), Stop>
        requires running { (node_of self.old.hub).main_end ≡ None }
        requires asked { is_some (main_line (node_of self.old.hub)) ≡ true }
        ensures kept { (p : TheProgram) (st : TheStart) (old : Option (List ℕ)) → IsJoined p st (node_of self.old.hub) (F.told fabric.old) old (K.written out.old) → Leaves p st result (node_of self.new.hub) (F.told fabric.new) old (K.written out.new) }
        ensures workers { self.new.workers ≡ self.old.workers }
        ensures process { id_of self.new.hub ≡ id_of self.old.hub }
        ensures begun { F.begun fabric.new ≡ F.begun fabric.old }
        ensures tells { is_some (F.told fabric.new) ≡ is_some (F.told fabric.old) }
        ensures falls { OnOk result (IsSome (F.told fabric.old) → work_left (node_of self.new.hub) self.old.workers (F.told fabric.new) < work_left (node_of self.old.hub) self.old.workers (F.told fabric.old)) }
        ensures cause { HasStepCause (K.faults out.old) (K.faults out.new) (F.faults fabric.old) (F.faults fabric.new) (F.limits fabric.old) (F.limits fabric.new) (node_of self.old.hub) (F.told fabric.new) result }
    {
        let text = match self.hub.main_line() {
            Some(values) => match line_bytes(alloc, values) {
                Ok(text) => text,
                Err(stop) => return Err(stop),
            },
            None => return Ok(()),
        };
        let mark = Mark {
            effect: Effect::Printed,
            by: 1,
        };
        match fabric.tell(mark) {
            Ok(()) => {}
            Err(fault) => return Err(stop_of(fault)),
        }
        match write_whole(out, text.as_bytes()) {
            Ok(()) => {}
            Err(_) => return Err(Stop::Write),
        }
        match self.hub.main_answer(Ok(Value::Nothing)) {
            Ok(()) => Ok(()),
            Err(fault) => Err(stop_of_node(fault)),
        }
    }

    /// How main ended, where it has.
    fn ended(&self) -> Result<Option<Ending>, Stop>
        ensures some { IfOk result (λ ending. ending ≡ option_map ending_of (node_of self.now.hub).main_end) }
        ensures memory { IfErr result (λ e. e ≡ OutOfMemory) }
    {
        match self.hub.main_end() {
            None => Ok(None),
            Some(Ok(_)) => Ok(Some(Ending::Normal)),
            Some(Err(fault)) => match fault.copy() {
                Ok(fault) => Ok(Some(Ending::Fault(fault))),
                Err(_) => Err(Stop::OutOfMemory),
            },
        }
    }

    /// Makes at least one event of process 1, or says why none can be made. Of what is possible it takes the first of
    /// these: the end of main, a message that leaves (to the lowest worker), main's line, the oldest task that can go
    /// on.
    pub fn step<K: Sink, F: Fabric>(
        &mut self,
        alloc: Global,
        out: &mut K,
        fabric: &mut F,
    ) -> Result<Step, Stop>
        requires begun { IsBegunWith (F.begun fabric.old) self.old.workers }
        requires process { id_of self.old.hub ≡ 1 }
        ensures kept { (p : TheProgram) (st : TheStart) (old : Option (List ℕ)) → IsJoined p st (node_of self.old.hub) (F.told fabric.old) old (K.written out.old) → Leaves p st result (node_of self.new.hub) (F.told fabric.new) old (K.written out.new) }
        ensures ended { IfOk result (λ s. HasEnded s (node_of self.new.hub)) }
        ensures needs { IfOk result (λ s. s ≡ Needs → IsIdle (node_of self.new.hub) self.new.workers × (F.told fabric.new ≡ F.told fabric.old) × (node_of self.new.hub ≡ node_of self.old.hub)) }
        ensures workers { self.new.workers ≡ self.old.workers }
        ensures process { id_of self.new.hub ≡ 1 }
        ensures begun { F.begun fabric.new ≡ F.begun fabric.old }
        ensures tells { is_some (F.told fabric.new) ≡ is_some (F.told fabric.old) }
        ensures falls { IfOk result (λ s. s ≡ Went → IsSome (F.told fabric.old) → work_left (node_of self.new.hub) self.old.workers (F.told fabric.new) < work_left (node_of self.old.hub) self.old.workers (F.told fabric.old)) }
        ensures cause { HasStepCause (K.faults out.old) (K.faults out.new) (F.faults fabric.old) (F.faults fabric.new) (F.limits fabric.old) (F.limits fabric.new) (node_of self.old.hub) (F.told fabric.new) result }
    {
        match self.ended() {
            Ok(None) => self.go(alloc, out, fabric),
            Ok(Some(ending)) => Ok(Step::Ended(ending)),
            Err(stop) => Err(stop),
        }
    }

    /// Makes at least one event of process 1, where main hasn't ended, or says that none can be made.
    fn go<K: Sink, F: Fabric>(
        &mut self,
        alloc: Global,
        out: &mut K,
        fabric: &mut F,
    ) -> Result<Step, Stop>
        requires running { (node_of self.old.hub).main_end ≡ None }
        requires begun { IsBegunWith (F.begun fabric.old) self.old.workers }
        requires process { id_of self.old.hub ≡ 1 }
        ensures kept { (p : TheProgram) (st : TheStart) (old : Option (List ℕ)) → IsJoined p st (node_of self.old.hub) (F.told fabric.old) old (K.written out.old) → Leaves p st result (node_of self.new.hub) (F.told fabric.new) old (K.written out.new) }
        ensures ended { IfOk result (λ s. HasEnded s (node_of self.new.hub)) }
        ensures needs { IfOk result (λ s. s ≡ Needs → IsIdle (node_of self.new.hub) self.new.workers × (F.told fabric.new ≡ F.told fabric.old) × (node_of self.new.hub ≡ node_of self.old.hub)) }
        ensures workers { self.new.workers ≡ self.old.workers }
        ensures process { id_of self.new.hub ≡ 1 }
        ensures begun { F.begun fabric.new ≡ F.begun fabric.old }
        ensures tells { is_some (F.told fabric.new) ≡ is_some (F.told fabric.old) }
        ensures falls { IfOk result (λ s. s ≡ Went → IsSome (F.told fabric.old) → work_left (node_of self.new.hub) self.old.workers (F.told fabric.new) < work_left (node_of self.old.hub) self.old.workers (F.told fabric.old)) }
        ensures cause { HasStepCause (K.faults out.old) (K.faults out.new) (F.faults fabric.old) (F.faults fabric.new) (F.limits fabric.old) (F.limits fabric.new) (node_of self.old.hub) (F.told fabric.new) result }
    {
        if let Some(to) = self.next_mail() {
            return match self.send_next(to, fabric) {
                Ok(()) => Ok(Step::Went),
                Err(stop) => Err(stop),
            };
        }
        if self.hub.main_line().is_some() {
            return match self.print(alloc, out, fabric) {
                Ok(()) => Ok(Step::Went),
                Err(stop) => Err(stop),
            };
        }
        match self.run_next(fabric) {
            Ok(true) => Ok(Step::Went),
            Ok(false) => Ok(Step::Needs),
            Err(stop) => Err(stop),
        }
    }

    /// Takes a message that came from a worker, and tells its marks.
    #[tactic(auto, using(crate::proofs::Kept::kept_waiting))]
    pub fn arrived<F: Fabric>(&mut self, from: u32, msg: Msg, fabric: &mut F) -> Result<(), Stop>
        requires running { (node_of self.old.hub).main_end ≡ None }
        ensures kept { (p : TheProgram) (st : TheStart) (old new : Option (List ℕ)) → IfSome (F.told fabric.old) (IsArriving p st (node_of self.old.hub) old new from msg) → Leaves p st result (node_of self.new.hub) (F.told fabric.new) old new }
        ensures workers { self.new.workers ≡ self.old.workers }
        ensures process { id_of self.new.hub ≡ id_of self.old.hub }
        ensures begun { F.begun fabric.new ≡ F.begun fabric.old }
        ensures tells { is_some (F.told fabric.new) ≡ is_some (F.told fabric.old) }
        ensures falls { OnOk result (IsSome (F.told fabric.old) → work_left (node_of self.new.hub) self.old.workers (F.told fabric.new) ≤ work_left (node_of self.old.hub) self.old.workers (F.told fabric.old)) }
        ensures cause { HasStepCause 0 0 (F.faults fabric.old) (F.faults fabric.new) (F.limits fabric.old) (F.limits fabric.new) (node_of self.old.hub) (F.told fabric.new) result }
    {
        match self.hub.deliver(from, msg) {
            Ok(()) => {}
            Err(_) => return Err(Stop::OutOfMemory),
        }
        match tell_all(fabric, self.hub.effects()) {
            Ok(()) => Ok(()),
            Err(fault) => Err(stop_of(fault)),
        }
    }
}
