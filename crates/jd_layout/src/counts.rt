//! The counts of pieces of a layout.
ghost use Rattle.std.specs.Prelude.{◌≡◌, ◌≤◌, ◌↔◌, length, IsTrue, All};
ghost use Rattle.jd_value.specs.Array.{product};
ghost use Rattle.jd_layout.specs.Blocks.{IsDist};

/// Whether the counts fit the dimensions and the processes: one for each dimension, none of them 0, and their product
/// is the number of processes.
pub fn is_dist(dims: &[u64], dist: &[u32], procs: &[u32]) -> bool
    requires { length dims.now ≤ 3 }
    ensures { IsTrue result ↔ IsDist dims.now dist.now procs.now }
{
    if dist.len() != dims.len() || !all_some(dist) {
        return false;
    }
    parts_in(dist) == procs.len() as u128
}

fn all_some(dist: &[u32]) -> bool
    ensures { IsTrue result ↔ All (λ pieces. 1 ≤ pieces) dist.now }
{
    dist.iter().all(|pieces| *pieces >= 1)
}

/// How many parts there are.
fn parts_in(dist: &[u32]) -> u128
    requires { length dist.now ≤ 3 }
    ensures { result ≡ product dist.now }
{
    let mut parts = 1;
    for pieces in dist {
        parts *= *pieces as u128;
    }
    parts
}
