//! The top call.
ghost use Rattle.std.specs.Prelude.{◌≡◌, ◌+◌, ◌↔◌, ◌≤◌, ℕ, List, None, Some, option_map, is_some, true, MatchOption, IfSome};
ghost use Rattle.std.specs.Io.KnownBytes.{Keeps};
ghost use Rattle.jd_source.specs.Counts.{Rose};
ghost use Rattle.jd_source.specs.Content.{AsksAtMost, TakesAtMost};
ghost use Rattle.jd_engine.specs.Words.{Command as TheCommand, command_of};
ghost use Rattle.jd_engine.specs.Endings.{status_of, line_of, Reports};
ghost use Rattle.jd_engine.specs.Loading.{Tells, IsBegun};
ghost use Rattle.jd_engine.specs.Headline.{Runs, RunsOn, IsQuiet, IsWhole, EndsInFault, EndsLike, start_of};
ghost use Rattle.jd_engine.specs.declared.status.Ending.{Ending as TheEnding};

use crate::load::load;
use crate::reporting::report;
use crate::status::{Ending, Status};
use crate::words::command;
use jd_model::{Ending as MachineEnding, Start};
use jd_session::{End, run};
use jd_source::{Opener, Pause, Sink};
use jd_syntax::MAX_SCRIPT;
use jd_value::{Fault, Program, Txt, print_fault};
use jd_world::Fabric;
use sqlite_items::Items;
use std::alloc::Global;

/// The ending of a script that ended in a fault.
fn script_error(alloc: Global, fault: &Fault) -> Ending
    ensures { EndsInFault fault.now result }
{
    let mut text = Txt::new(alloc);
    match print_fault(fault, &mut text) {
        Ok(()) => Ending::ScriptError(text),
        Err(_) => Ending::OutOfMemory,
    }
}

fn ending_of(alloc: Global, end: End) -> Ending
    ensures { EndsLike end result }
{
    match end {
        End::Ended(MachineEnding::Normal) => Ending::Done,
        End::Ended(MachineEnding::Fault(fault)) => script_error(alloc, &fault),
        End::Write => Ending::WriteFault,
        End::Fabric => Ending::FabricFault,
        End::Limit => Ending::Limit,
        End::Stalled => Ending::Stalled,
        End::OutOfMemory => Ending::OutOfMemory,
    }
}

/// Runs a program on so many workers.
fn run_program<K: Sink, F: Fabric>(
    alloc: Global,
    program: &Program,
    workers: u32,
    out: &mut K,
    fabric: &mut F,
) -> Ending
    requires few { workers ≤ 16 }
    requires fresh { F.begun fabric.old ≡ None }
    requires tells { is_some (F.told fabric.old) ≡ true }
    ensures runs { RunsOn program.now (start_of workers) result (F.begun fabric.new) (F.told fabric.new) (K.written out.old) (K.written out.new) }
    ensures write { result ≡ Ending.WriteFault → Rose (K.faults out.old) (K.faults out.new) }
    ensures fabric { result ≡ Ending.FabricFault → Rose (F.faults fabric.old) (F.faults fabric.new) }
    ensures loud { IsQuiet result → ⊥ }
    ensures tells { is_some (F.told fabric.new) ≡ true }
{
    let start = Start {
        workers,
        seed: 0,
        losses: Items::new(alloc),
    };
    let end = run(alloc, program, &start, out, fabric);
    ending_of(alloc, end)
}

fn ran<S: Opener, K: Sink, F: Fabric>(
    alloc: Global,
    words: &[String],
    script: &mut S,
    out: &mut K,
    fabric: &mut F,
) -> Ending
    requires fresh { F.begun fabric.old ≡ None }
    requires tells { is_some (F.told fabric.old) ≡ true }
    ensures told { (c : TheCommand) (content : List ℕ) → command_of words.now ≡ Some c → Tells (S.files script.old) c.file content → Runs content c.workers result (F.begun fabric.new) (F.told fabric.new) (K.written out.old) (K.written out.new) }
    ensures usage { (result ≡ Ending.Usage) ↔ (command_of words.now ≡ None) }
    ensures quiet { IsQuiet result → Keeps (K.written out.old) (K.written out.new) × (F.begun fabric.new ≡ None) }
    ensures read { result ≡ Ending.ReadFault → Rose (S.faults script.old) (S.faults script.new) }
    ensures write { result ≡ Ending.WriteFault → Rose (K.faults out.old) (K.faults out.new) }
    ensures fabric { result ≡ Ending.FabricFault → Rose (F.faults fabric.old) (F.faults fabric.new) }
    ensures whole { IsWhole result → Rose (S.ends script.old) (S.ends script.new) }
    ensures taken { (c : TheCommand) (content : List ℕ) → command_of words.now ≡ Some c → Tells (S.files script.old) c.file content → IsBegun (status_of result) → TakesAtMost (MAX_SCRIPT + 1) (Some content) (S.left script.new) }
    ensures files { S.files script.new ≡ S.files script.old }
    ensures asked { AsksAtMost (S.asked script.old) (S.asked script.new) (option_map (λ c. c.file) (command_of words.now)) }
{
    let Some((name, workers)) = command(words) else {
        return Ending::Usage;
    };
    match load(alloc, name, script) {
        Ok(program) => run_program(alloc, &program, workers, out, fabric),
        Err(ending) => ending,
    }
}

/// Runs the script in the file that the words `sim FILE` or `sim -p N FILE` name, on N workers over the fabric. Printed
/// lines go to `out`, each as one piece before the next event of process 1, and the line that says how the run ended
/// goes to `err`; where that sink fails, nothing else changes. Other words are `Usage`. No pause is asked for yet.
pub fn sim<S: Opener, K: Sink, E: Sink, F: Fabric, P: Pause>(
    alloc: Global,
    words: &[String],
    script: &mut S,
    out: &mut K,
    err: &mut E,
    fabric: &mut F,
    pause: &mut P,
) -> Status
    requires fresh { F.begun fabric.old ≡ None }
    requires tells { is_some (F.told fabric.old) ≡ true }
    // One ending explains the status, what was written to `out` over what was recorded, and the line on `err`.
    ensures run { (ending : TheEnding) × (result ≡ status_of ending)
        × ((c : TheCommand) (content : List ℕ) → command_of words.now ≡ Some c → Tells (S.files script.old) c.file content → Runs content c.workers ending (F.begun fabric.new) (F.told fabric.new) (K.written out.old) (K.written out.new))
        × Reports (E.written err.old) (E.written err.new) (E.faults err.old) (E.faults err.new) (line_of ending) }
    ensures usage { (result ≡ Status.Usage) ↔ (command_of words.now ≡ None) }
    ensures read { result ≡ Status.ReadFault → Rose (S.faults script.old) (S.faults script.new) }
    ensures write { result ≡ Status.WriteFault → Rose (K.faults out.old) (K.faults out.new) }
    ensures fabric { result ≡ Status.FabricFault → Rose (F.faults fabric.old) (F.faults fabric.new) }
    // These come only where the source was read to its end.
    ensures whole_done { result ≡ Status.Done → Rose (S.ends script.old) (S.ends script.new) }
    ensures whole_error { result ≡ Status.ScriptError → Rose (S.ends script.old) (S.ends script.new) }
    ensures whole_stalled { result ≡ Status.Stalled → Rose (S.ends script.old) (S.ends script.new) }
    ensures whole_limit { result ≡ Status.Limit → Rose (S.ends script.old) (S.ends script.new) }
    // Nothing is written, and no worker is started, before a script is read.
    ensures quiet_usage { result ≡ Status.Usage → Keeps (K.written out.old) (K.written out.new) × (F.begun fabric.new ≡ None) }
    ensures quiet_refused { result ≡ Status.ScriptRefused → Keeps (K.written out.old) (K.written out.new) × (F.begun fabric.new ≡ None) }
    ensures quiet_read { result ≡ Status.ReadFault → Keeps (K.written out.old) (K.written out.new) × (F.begun fabric.new ≡ None) }
    // At most one byte more than the longest script is read.
    ensures taken { (c : TheCommand) (content : List ℕ) → command_of words.now ≡ Some c → Tells (S.files script.old) c.file content → IsBegun result → TakesAtMost (MAX_SCRIPT + 1) (Some content) (S.left script.new) }
    // No other name than that of the words is asked for, and no file is changed.
    ensures asked { AsksAtMost (S.asked script.old) (S.asked script.new) (option_map (λ c. c.file) (command_of words.now)) }
    ensures files { S.files script.new ≡ S.files script.old }
    ensures paused { P.paused pause.new ≡ P.paused pause.old }
{
    let ending = ran(alloc, words, script, out, fabric);
    report(err, &ending);
    ending.status()
}
