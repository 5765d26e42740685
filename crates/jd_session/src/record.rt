//! Telling the record what process 1 did.
ghost use Rattle.std.specs.Prelude.{◌≡◌, OnOk, OnErr};
ghost use Rattle.jd_world.specs.Fabric.{WhereTold, HasCause};
ghost use Rattle.jd_session.specs.Recorded.{Records, RecordsPart};

use jd_model::{Effect, Mark};
use jd_world::{Fabric, FabricFault};

#[tactic(auto, using(crate::proofs::Kept::kept_sent, crate::proofs::Telling::told_first, crate::proofs::Telling::told_next, crate::proofs::Telling::told_all, crate::proofs::Telling::told_part))]
/// Puts the effects of process 1 at the end of the record, one after the other.
pub(crate) fn tell_all<F: Fabric>(fabric: &mut F, mut effects: &[Effect]) -> Result<(), FabricFault>
    ensures begun { F.begun fabric.new ≡ F.begun fabric.old }
    ensures told { OnOk result (WhereTold (Records effects.entry.now) (F.told fabric.old) (F.told fabric.new)) }
    ensures err { OnErr result (WhereTold (RecordsPart effects.entry.now) (F.told fabric.old) (F.told fabric.new)) }
    ensures cause { HasCause (F.faults fabric.old) (F.faults fabric.new) (F.limits fabric.old) (F.limits fabric.new) (F.told fabric.new) result }
{
    while let [effect, rest @ ..] = effects {
        let mark = Mark {
            effect: *effect,
            by: 1,
        };
        match fabric.tell(mark) {
            Ok(()) => {}
            Err(fault) => return Err(fault),
        }
        effects = rest;
    }
    Ok(())
}
