//! Where the bytes of a script come from and where printed lines go.
//!
//! The layer above gets the traits `Source`, `Opener`, `Sink`, `LinkSink` and `Pause`, whose contracts say what each
//! call does to the bytes, to the counts of faults and to the seconds asked for, and two loops over them that read to
//! the end and write whole pieces. Each trait has an implementation in memory, which tells what contracts see and, of
//! bytes, fails at listed calls, and each but `LinkSink` one over the host's files, streams and clock, which tells
//! nothing and is trusted. The crate stands on std alone.
#![tactic(auto)]

mod host;
mod memory;
mod pause;
mod traits;
mod transfer;

pub use host::{StdSink, StdSource};
pub use memory::{MemFile, MemSink, MemSource};
pub use pause::{MemPause, NoPause, Pause, StdPause};
pub use traits::{Failed, LinkSink, Opener, Sink, Source};
pub use transfer::{ReadFault, read_up_to, write_whole};
