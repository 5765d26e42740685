//! Lists of process ids.
ghost use Rattle.std.specs.Prelude.{◌≡◌, ◌&&◌, not, ℕ, IfOk, IsTrue, ◌↔◌, nat_eq};
ghost use Rattle.std.specs.Ordering.{nat_cmp};
ghost use Rattle.std.specs.List.{list_any};
ghost use Rattle.std.specs.BTreeSet.{contains};
ghost use Rattle.jd_layout.specs.Blocks.{AreProcs};
ghost use Rattle.jd_layout.specs.Ids.{AreApartIn};

use std::alloc::{AllocError, Global};
use std::collections::BTreeSet;

/// Whether each process is a known one and none stands twice.
pub fn are_procs(alloc: Global, procs: &[u32], known: &[u32]) -> Result<bool, AllocError>
    ensures { IfOk result (λ yes. IsTrue yes ↔ AreProcs procs.now known.now) }
{
    Ok(are_apart_in(id_set(alloc, known)?, procs))
}

/// The set of these ids.
fn id_set(alloc: Global, ids: &[u32]) -> Result<BTreeSet<u32>, AllocError>
    ensures { IfOk result (λ set. (q : ℕ) → contains nat_cmp set q ≡ list_any (nat_eq q) ids.now) }
{
    let mut set = BTreeSet::new(alloc);
    for id in ids {
        set.insert(*id)?;
    }
    Ok(set)
}

/// Takes an id out of the set, and answers whether it was there.
fn take_id(set: &mut BTreeSet<u32>, id: u32) -> bool
    ensures found { result ≡ contains nat_cmp set.old id }
    ensures others { (q : ℕ) →
        contains nat_cmp set.new q ≡ (contains nat_cmp set.old q && not (nat_eq q id)) }
{
    set.remove(&id)
}

/// Whether each id is in the set and none stands twice.
fn are_apart_in(mut set: BTreeSet<u32>, procs: &[u32]) -> bool
    ensures { IsTrue result ↔ AreApartIn set procs.now }
{
    for process in procs {
        if !take_id(&mut set, *process) {
            return false;
        }
    }
    true
}
