//! What the builtin functions give of their arguments.
ghost use Rattle.std.specs.Prelude.{◌≡◌};
ghost use Rattle.jd_expr.specs.Action.{Gives};
ghost use Rattle.jd_expr.specs.Builtins as spec;
ghost use Rattle.jd_expr.specs.Builtins.{builtin};

use crate::arithmetic::plain;
use crate::budget::Budget;
use crate::collections::{array_of, collected, concatenated};
use crate::grids::grid_of;
use crate::indexing::indexed;
use crate::making::{filled, list_of, tuple_of};
use crate::numbers::{maximum_of, minimum_of, product_of, sum_of};
use crate::ranges::range_of;
use crate::sizing::{dimensions_of, emptiness, first_item, last_item, length_of};
use crate::stop::Stop;
use crate::throwing::{error_of, identity_of, limit_of, thrown};
use jd_value::{Builtin, Fault, Value};
use std::alloc::Global;

/// Whether it is a function of numbers and truth values, or equality: it takes no units of its own, and makes no
/// collection.
pub(crate) fn is_plain(function: Builtin) -> bool
    ensures { result ≡ spec.is_plain function }
{
    match function {
        Builtin::Add
        | Builtin::Subtract
        | Builtin::Multiply
        | Builtin::Negate
        | Builtin::Divide
        | Builtin::Remainder
        | Builtin::Modulo
        | Builtin::And
        | Builtin::Or
        | Builtin::Xor
        | Builtin::Complement
        | Builtin::Not
        | Builtin::Equal
        | Builtin::NotEqual
        | Builtin::Less
        | Builtin::AtMost
        | Builtin::Greater
        | Builtin::AtLeast
        | Builtin::Abs
        | Builtin::Min
        | Builtin::Max
        | Builtin::IsEven
        | Builtin::IsOdd => true,
        _ => false,
    }
}

/// The functions that read a collection, and those that throw.
fn reading(
    alloc: Global,
    function: Builtin,
    arguments: &[Value],
    budget: &mut Budget,
) -> Result<Value, Stop>
    ensures { Gives (spec.reading function arguments.now budget.old) result budget.new }
{
    match function {
        Builtin::Length => length_of(alloc, arguments, budget),
        Builtin::Size => dimensions_of(alloc, arguments, budget),
        Builtin::Sum => sum_of(alloc, arguments, budget),
        Builtin::Product => product_of(alloc, arguments, budget),
        Builtin::Maximum => maximum_of(alloc, arguments, budget),
        Builtin::Minimum => minimum_of(alloc, arguments, budget),
        Builtin::First => first_item(alloc, arguments, budget),
        Builtin::Last => last_item(alloc, arguments, budget),
        Builtin::IsEmpty => emptiness(alloc, arguments, budget),
        Builtin::Identity => identity_of(alloc, arguments, budget),
        Builtin::Error => error_of(alloc, arguments, budget),
        Builtin::Throw => thrown(alloc, arguments, budget),
        Builtin::TypeMax | Builtin::TypeMin => limit_of(alloc, arguments, budget),
        _ => Err(Stop::Faulted(Fault::BadType)),
    }
}

/// The functions of collections: those that make one, and the others.
fn of_collections(
    alloc: Global,
    function: Builtin,
    arguments: &[Value],
    budget: &mut Budget,
) -> Result<Value, Stop>
    ensures { Gives (spec.of_collections function arguments.now budget.old) result budget.new }
{
    match function {
        Builtin::Range => range_of(alloc, arguments, budget),
        Builtin::List => list_of(alloc, arguments, budget),
        Builtin::Tuple => tuple_of(alloc, arguments, budget),
        Builtin::Grid => grid_of(alloc, arguments, budget),
        Builtin::Index => indexed(alloc, arguments, budget),
        Builtin::Collect => collected(alloc, arguments, budget),
        Builtin::Fill => filled(alloc, arguments, budget),
        Builtin::Concatenate => concatenated(alloc, arguments, budget),
        Builtin::Array => array_of(alloc, arguments, budget),
        _ => reading(alloc, function, arguments, budget),
    }
}

/// What a builtin function gives of its arguments. Wrong kinds and numbers of arguments are `BadType`.
#[tactic(auto, unfolding(crate::specs::Builtins::builtin))]
pub fn apply_builtin(
    alloc: Global,
    function: Builtin,
    arguments: &[Value],
    budget: &mut Budget,
) -> Result<Value, Stop>
    ensures { Gives (builtin function arguments.now budget.old) result budget.new }
{
    if is_plain(function) {
        plain(function, arguments).map_err(Stop::Faulted)
    } else {
        of_collections(alloc, function, arguments, budget)
    }
}
