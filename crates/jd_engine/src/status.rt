//! How a run ends.
ghost use Rattle.std.specs.Prelude.{◌≡◌};
ghost use Rattle.jd_engine.specs.Endings.{status_of};

use jd_syntax::ParseKind;
use jd_value::Txt;

/// The exit status of the program.
#[derive(Clone, Copy, Debug, PartialEq, Eq)]
pub enum Status {
    /// The script came to its end.
    Done = 0,
    /// The script ended in a fault that nothing caught.
    ScriptError = 1,
    /// The words are no command.
    Usage = 2,
    /// The file holds no script.
    ScriptRefused = 3,
    /// The source of the script failed.
    ReadFault = 4,
    /// The sink of the printed lines failed.
    WriteFault = 5,
    /// What carries the messages failed.
    FabricFault = 6,
    /// A limit of a run was reached.
    Limit = 7,
    /// Nothing can go on, and the script hasn't come to its end.
    Stalled = 8,
    OutOfMemory = 9,
}

/// How a run ended, with what its status leaves out.
#[derive(Drop)]
pub enum Ending {
    Done,
    /// With the printed form of the fault.
    ScriptError(Txt),
    Usage,
    ScriptRefused { line: u32, kind: ParseKind },
    ReadFault,
    WriteFault,
    FabricFault,
    Limit,
    Stalled,
    OutOfMemory,
}

impl Ending {
    /// The exit status.
    pub fn status(&self) -> Status
        ensures { result ≡ status_of self.now }
    {
        match self {
            Ending::Done => Status::Done,
            Ending::ScriptError(_) => Status::ScriptError,
            Ending::Usage => Status::Usage,
            Ending::ScriptRefused { .. } => Status::ScriptRefused,
            Ending::ReadFault => Status::ReadFault,
            Ending::WriteFault => Status::WriteFault,
            Ending::FabricFault => Status::FabricFault,
            Ending::Limit => Status::Limit,
            Ending::Stalled => Status::Stalled,
            Ending::OutOfMemory => Status::OutOfMemory,
        }
    }
}
