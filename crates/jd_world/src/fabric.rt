//! What carries messages between process 1 and its workers.
ghost use Rattle.std.specs.Prelude.{◌≡◌, ℕ, Option, None, Some, IfOk, IfErr, OnOk, OnErr, is_some};
ghost use Rattle.jd_model.specs.declared.start.Start.{Start as TheStart};
ghost use Rattle.jd_model.specs.World.{Told, first_told};
ghost use Rattle.jd_world.specs.Fabric.{WhereTold, SameMarks, MovesMarks, Sends, Tells, ReceivesA, IsFrom, IsMessage, IsWorker, HasCause};

use jd_model::{Mark, Start};
use jd_task::Msg;

/// Why a fabric couldn't do what was asked. Afterwards it is used no more.
#[derive(Clone, Copy, Debug, PartialEq, Eq, Drop)]
pub enum FabricFault {
    /// The fabric failed, and has counted it.
    Failed,
    /// A limit of a run was reached: 1,000,000 marks, or 10,000,000 events of the world.
    Limit,
    OutOfMemory,
}

/// What comes to process 1.
#[derive(Drop)]
pub enum Arrival {
    /// The first message on the link from that worker.
    Message { from: u32, msg: Msg },
    /// Nothing: no worker and no link can move, and nothing is on a link to process 1.
    Quiet,
}

/// A cluster's workers with the links to and from process 1, and the record of effects.
///
/// A fabric may tell its world and the record to contracts, or neither. Which of the possible events it takes is open.
/// Its counts never fall and stop at `u64::MAX`.
pub trait Fabric {
    /// The workers, the links, the number of events and the record of effects, where they are told.
    ghost told: { Self → Option Told };

    /// What it was begun with. Only an Ok of `begin` changes it.
    ghost begun: { Self → Option TheStart };

    /// How many calls have failed.
    ghost faults: { Self → ℕ };

    /// How many calls have reached a limit.
    ghost limits: { Self → ℕ };

    /// Starts the workers. No event has happened, and the record is empty.
    fn begin(&mut self, start: &Start) -> Result<(), FabricFault>
        requires { begun self.old ≡ None }
        ensures begun { OnOk result (begun self.new ≡ Some start.now) }
        ensures not_begun { OnErr result (begun self.new ≡ None) }
        ensures first { OnOk result (WhereTold (λ t u. u ≡ first_told start.now) (told self.old) (told self.new)) }
        ensures tells { is_some (told self.new) ≡ is_some (told self.old) }
        ensures cause { HasCause (faults self.old) (faults self.new) (limits self.old) (limits self.new) (told self.new) result };

    /// Puts a message at the end of the link from process 1 to a worker.
    fn send(&mut self, to: u32, msg: Msg) -> Result<(), FabricFault>
        requires { IsWorker (begun self.old) to }
        ensures begun { begun self.new ≡ begun self.old }
        ensures sent { OnOk result (WhereTold (Sends to msg) (told self.old) (told self.new)) }
        ensures err { OnErr result (WhereTold SameMarks (told self.old) (told self.new)) }
        ensures cause { HasCause (faults self.old) (faults self.new) (limits self.old) (limits self.new) (told self.new) result };

    /// Lets workers and links move by possible events until a message for process 1 can be taken off its link, or
    /// nothing can move. It never waits.
    fn receive(&mut self) -> Result<Arrival, FabricFault>
        ensures begun { begun self.new ≡ begun self.old }
        ensures from { IfOk result (IsFrom (begun self.old)) }
        ensures arrival { IfOk result (λ arrival. WhereTold (ReceivesA arrival) (told self.old) (told self.new)) }
        ensures err { OnErr result (WhereTold MovesMarks (told self.old) (told self.new)) }
        ensures cause { HasCause (faults self.old) (faults self.new) (limits self.old) (limits self.new) (told self.new) result };

    /// Puts a mark of process 1 at the end of the record. A call that fails adds nothing.
    fn tell(&mut self, mark: Mark) -> Result<(), FabricFault>
        requires { mark.by ≡ 1 }
        ensures begun { begun self.new ≡ begun self.old }
        ensures told { OnOk result (WhereTold (Tells mark) (told self.old) (told self.new)) }
        ensures err { OnErr result (WhereTold SameMarks (told self.old) (told self.new)) }
        ensures cause { HasCause (faults self.old) (faults self.new) (limits self.old) (limits self.new) (told self.new) result };
}

/// A fabric of running processes.
pub trait LiveFabric: Fabric {
    /// As `receive`, but it may wait for a message, and never answers `Quiet`.
    fn arrive(&mut self) -> Result<Arrival, FabricFault>
        ensures begun { Self.begun self.new ≡ Self.begun self.old }
        ensures from { IfOk result (IsFrom (Self.begun self.old)) }
        ensures message { IfOk result IsMessage }
        ensures arrival { IfOk result (λ arrival. WhereTold (ReceivesA arrival) (Self.told self.old) (Self.told self.new)) }
        ensures err { OnErr result (WhereTold MovesMarks (Self.told self.old) (Self.told self.new)) }
        ensures cause { HasCause (Self.faults self.old) (Self.faults self.new) (Self.limits self.old) (Self.limits self.new) (Self.told self.new) result };
}
