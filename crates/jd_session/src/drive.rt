//! A run from its beginning to its end.
ghost use Rattle.std.specs.Prelude.{◌≡◌, ◌<◌, ◌≤◌, ℕ, List, Option, None, IfSome, IfNone, IsSome, MatchOption, is_some, true};
ghost use Rattle.std.specs.Io.KnownBytes.{Keeps};
ghost use Rattle.jd_value.specs.declared.tree.Program.{Program as TheProgram};
ghost use Rattle.jd_model.specs.declared.start.Start.{Start as TheStart};
ghost use Rattle.jd_node.specs.View.{node_of, id_of};
ghost use Rattle.jd_session.specs.Headline.{IsBegunWith, IsJoined, IsIdle, work_left};
ghost use Rattle.jd_session.specs.Ends.{EndsAs, IsEarly, HasEndCause};

use crate::session::Session;
use crate::stop::{End, Step, Stop, end_of, stop_of};
use jd_model::Start;
use jd_source::Sink;
use jd_value::Program;
use jd_world::{Arrival, Fabric};
use std::alloc::Global;

/// Takes one arrival, where nothing else can go on. The end, where the run is over.
fn wait<F: Fabric>(session: &mut Session, fabric: &mut F) -> Option<End>
    requires begun { IsBegunWith (F.begun fabric.old) session.old.workers }
    requires idle { IsIdle (node_of session.old.hub) session.old.workers }
    ensures go { IfNone result ((p : TheProgram) (st : TheStart) (old new : Option (List ℕ)) → IsJoined p st (node_of session.old.hub) (F.told fabric.old) old new → IsJoined p st (node_of session.new.hub) (F.told fabric.new) old new) }
    ensures end { IfSome result (λ e. (p : TheProgram) (st : TheStart) (old new : Option (List ℕ)) → st.workers ≡ session.old.workers → IsJoined p st (node_of session.old.hub) (F.told fabric.old) old new → IfSome (F.told fabric.new) (EndsAs p st e old new)) }
    ensures workers { session.new.workers ≡ session.old.workers }
    ensures process { id_of session.new.hub ≡ id_of session.old.hub }
    ensures begun { F.begun fabric.new ≡ F.begun fabric.old }
    ensures tells { is_some (F.told fabric.new) ≡ is_some (F.told fabric.old) }
    ensures falls { IfNone result (IsSome (F.told fabric.old) → work_left (node_of session.new.hub) session.old.workers (F.told fabric.new) < work_left (node_of session.old.hub) session.old.workers (F.told fabric.old)) }
    ensures cause { IfSome result (HasEndCause 0 0 (F.faults fabric.old) (F.faults fabric.new) (F.limits fabric.old) (F.limits fabric.new)) }
    ensures later { F.faults fabric.old ≤ F.faults fabric.new }
{
    match fabric.receive() {
        Ok(Arrival::Quiet) => Some(End::Stalled),
        Ok(Arrival::Message { from, msg }) => match session.arrived(from, msg, fabric) {
            Ok(()) => None,
            Err(stop) => Some(end_of(stop)),
        },
        Err(fault) => Some(end_of(stop_of(fault))),
    }
}

/// One step, and where nothing can go on one arrival. The end, where the run is over.
fn turn<K: Sink, F: Fabric>(
    alloc: Global,
    session: &mut Session,
    out: &mut K,
    fabric: &mut F,
) -> Option<End>
    requires begun { IsBegunWith (F.begun fabric.old) session.old.workers }
    requires process { id_of session.old.hub ≡ 1 }
    ensures go { IfNone result ((p : TheProgram) (st : TheStart) (old : Option (List ℕ)) → IsJoined p st (node_of session.old.hub) (F.told fabric.old) old (K.written out.old) → IsJoined p st (node_of session.new.hub) (F.told fabric.new) old (K.written out.new)) }
    ensures end { IfSome result (λ e. (p : TheProgram) (st : TheStart) (old : Option (List ℕ)) → st.workers ≡ session.old.workers → IsJoined p st (node_of session.old.hub) (F.told fabric.old) old (K.written out.old) → IfSome (F.told fabric.new) (EndsAs p st e old (K.written out.new))) }
    ensures workers { session.new.workers ≡ session.old.workers }
    ensures process { id_of session.new.hub ≡ 1 }
    ensures begun { F.begun fabric.new ≡ F.begun fabric.old }
    ensures tells { is_some (F.told fabric.new) ≡ is_some (F.told fabric.old) }
    ensures falls { IfNone result (IsSome (F.told fabric.old) → work_left (node_of session.new.hub) session.old.workers (F.told fabric.new) < work_left (node_of session.old.hub) session.old.workers (F.told fabric.old)) }
    ensures cause { IfSome result (HasEndCause (K.faults out.old) (K.faults out.new) (F.faults fabric.old) (F.faults fabric.new) (F.limits fabric.old) (F.limits fabric.new)) }
    ensures sink_later { K.faults out.old ≤ K.faults out.new }
    ensures later { F.faults fabric.old ≤ F.faults fabric.new }
{
    match session.step(alloc, out, fabric) {
        Ok(Step::Went) => None,
        Ok(Step::Ended(ending)) => Some(End::Ended(ending)),
        Ok(Step::Needs) => wait(session, fabric),
        Err(stop) => Some(end_of(stop)),
    }
}

/// Steps until the run is over.
fn drive<K: Sink, F: Fabric>(
    alloc: Global,
    session: &mut Session,
    out: &mut K,
    fabric: &mut F,
) -> End
    requires begun { IsBegunWith (F.begun fabric.old) session.old.workers }
    requires process { id_of session.old.hub ≡ 1 }
    requires tells { is_some (F.told fabric.old) ≡ true }
    ensures run { (p : TheProgram) (st : TheStart) (old : Option (List ℕ)) → st.workers ≡ session.old.workers → IsJoined p st (node_of session.old.hub) (F.told fabric.old) old (K.written out.old) → IfSome (F.told fabric.new) (EndsAs p st result old (K.written out.new)) }
    ensures begun { F.begun fabric.new ≡ F.begun fabric.old }
    ensures tells { is_some (F.told fabric.new) ≡ is_some (F.told fabric.old) }
    ensures cause { HasEndCause (K.faults out.old) (K.faults out.new) (F.faults fabric.old) (F.faults fabric.new) (F.limits fabric.old) (F.limits fabric.new) result }
    ensures sink_later { K.faults out.old ≤ K.faults out.new }
    ensures later { F.faults fabric.old ≤ F.faults fabric.new }
{
    loop {
        if let Some(end) = turn(alloc, session, out, fabric) {
            return end;
        }
    }
}

/// Runs a program on a cluster. The lines go to `out`, each as one piece before the next event of process 1.
pub fn run<K: Sink, F: Fabric>(
    alloc: Global,
    program: &Program,
    start: &Start,
    out: &mut K,
    fabric: &mut F,
) -> End
    requires few { start.now.workers ≤ 16 }
    requires fresh { F.begun fabric.old ≡ None }
    requires tells { is_some (F.told fabric.old) ≡ true }
    // What was written are the lines of the replay of the record; before `begin` nothing was.
    ensures run { MatchOption (F.begun fabric.new) (IsEarly result (F.told fabric.new) × Keeps (K.written out.old) (K.written out.new)) (λ begun. (begun ≡ start.now) × IfSome (F.told fabric.new) (EndsAs program.now start.now result (K.written out.old) (K.written out.new))) }
    ensures tells { is_some (F.told fabric.new) ≡ true }
    ensures cause { HasEndCause (K.faults out.old) (K.faults out.new) (F.faults fabric.old) (F.faults fabric.new) (F.limits fabric.old) (F.limits fabric.new) result }
    ensures sink_later { K.faults out.old ≤ K.faults out.new }
    ensures later { F.faults fabric.old ≤ F.faults fabric.new }
{
    let mut session = match Session::start(alloc, program, start) {
        Ok(session) => session,
        Err(stop) => return end_of(stop),
    };
    match fabric.begin(start) {
        Ok(()) => {
            let end = drive(alloc, &mut session, out, fabric);
            drop(session);
            end
        }
        Err(fault) => {
            drop(session);
            end_of(stop_of(fault))
        }
    }
}
