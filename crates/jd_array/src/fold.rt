//! Folds of cells by the seven reducing operations.
ghost use Rattle.std.specs.Prelude.{◌≡◌};
ghost use Rattle.std.specs.Option.{ok_or};
ghost use Rattle.jd_array.specs.Fold.{combined, identity_of, folded, IsCommutative};
ghost use Rattle.jd_array.specs.declared.fault.ArrayFault.TheVariants.{Argument};

use crate::fault::ArrayFault;

/// An operation that folds cells: Julia's `+`, `*`, `min`, `max`, `&`, `|` and `xor` on whole numbers of 64 bits, of
/// which the first two wrap.
#[derive(Clone, Copy, Debug, PartialEq, Eq)]
pub enum Reducer {
    Add,
    Mul,
    Min,
    Max,
    And,
    Or,
    Xor,
}

impl Reducer {
    /// What it makes of two cells.
    pub fn combine(self, a: i64, b: i64) -> i64
        ensures { result ≡ combined self a b }
    {
        match self {
            Reducer::Add => a.wrapping_add(b),
            Reducer::Mul => a.wrapping_mul(b),
            Reducer::Min => a.min(b),
            Reducer::Max => a.max(b),
            Reducer::And => a & b,
            Reducer::Or => a | b,
            Reducer::Xor => a ^ b,
        }
    }

    /// What it makes of no cells: 0 for a sum, 1 for a product, and nothing for the others.
    pub fn identity(self) -> Option<i64>
        ensures { result ≡ identity_of self }
    {
        match self {
            Reducer::Add => Some(0),
            Reducer::Mul => Some(1),
            _ => None,
        }
    }
}

/// The fold of the cells from the first one on.
///
/// `Argument` comes exactly where there are no cells and the operation is neither a sum nor a product. Takes no
/// memory. That a sum or product of none is 0 or 1 is Julia's rule for `sum` and `prod`; the rest is this project's
/// own.
pub fn fold_op(op: Reducer, cells: &[i64]) -> Result<i64, ArrayFault>
    ensures { result ≡ ok_or (folded op cells.now) Argument }
{
    let Some((first, rest)) = cells.split_first() else {
        return op.identity().ok_or(ArrayFault::Argument);
    };
    let mut total = *first;
    for cell in rest {
        total = op.combine(total, *cell);
    }
    Ok(total)
}

/// The law of the reducing operations: neither the order nor the grouping of the cells matters to them.
pub fn reducer_is_commutative(_op: Reducer)
    ensures { IsCommutative (combined _op) }
{}
