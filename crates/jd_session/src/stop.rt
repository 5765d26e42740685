//! How steps and arrivals end.
ghost use Rattle.std.specs.Prelude.{◌≡◌};
ghost use Rattle.jd_session.specs.Stops.{stopped_by, ended_by};

use jd_model::Ending;
use jd_world::FabricFault;

/// What a step of a session came to.
#[derive(Drop)]
pub enum Step {
    /// It made at least one event of process 1.
    Went,
    /// Nothing can go on without an arrival.
    Needs,
    /// Main has ended.
    Ended(Ending),
}

/// Why a step stopped. Afterwards the session is used no more.
#[derive(Clone, Copy, Debug, PartialEq, Eq, Drop)]
pub enum Stop {
    /// The sink of the printed lines failed.
    Write,
    /// The fabric failed.
    Fabric,
    /// A limit of the run was reached.
    Limit,
    OutOfMemory,
}

pub(crate) fn stop_of(fault: FabricFault) -> Stop
    ensures { result ≡ stopped_by fault }
{
    match fault {
        FabricFault::Failed => Stop::Fabric,
        FabricFault::Limit => Stop::Limit,
        FabricFault::OutOfMemory => Stop::OutOfMemory,
    }
}

/// How a run ended.
#[derive(Drop)]
pub enum End {
    /// Main ended.
    Ended(Ending),
    /// The sink of the printed lines failed.
    Write,
    /// The fabric failed.
    Fabric,
    /// A limit of the run was reached.
    Limit,
    /// Nothing can move, and main hasn't ended.
    Stalled,
    OutOfMemory,
}

pub(crate) fn end_of(stop: Stop) -> End
    ensures { result ≡ ended_by stop }
{
    match stop {
        Stop::Write => End::Write,
        Stop::Fabric => End::Fabric,
        Stop::Limit => End::Limit,
        Stop::OutOfMemory => End::OutOfMemory,
    }
}
