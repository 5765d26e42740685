//! `push!`.
ghost use Rattle.std.specs.Prelude.{◌≡◌, ◌++◌, ◌∷◌, [], IfOk};
ghost use Rattle.jd_expr.specs.Action.{Gives, lift_to};
ghost use Rattle.jd_task.specs.Pushing.{longer, with_last, within_sizes};
ghost use Rattle.jd_task.specs.Running as spec;
ghost use Rattle.jd_task.specs.declared.doing.Doing.{Doing as TheDoing};

use crate::doing::Doing;
use crate::flow::Flow;
use crate::msg::copy_values;
use crate::reached::Reached;
use crate::statement::set;
use jd_expr::{Stop, eval};
use jd_value::{Expr, Fault, OutOfMemory, Shared, Txt, Value, depth, words};
use sqlite_items::Items;
use std::alloc::Global;

/// The most elements of a list.
const MAX_ELEMENTS: usize = 262_144;

/// The most words of a value.
const MAX_WORDS: u64 = 1_048_576;

/// The most levels of a value.
const MAX_DEPTH: u32 = 64;

/// A value, where it isn't too large, and not too deep.
fn within_sizes(value: Value) -> Result<Value, Fault>
    ensures { result ≡ within_sizes value }
{
    if words(&value) > MAX_WORDS {
        return Err(Fault::Argument);
    }
    if depth(&value) > MAX_DEPTH {
        return Err(Fault::Deep);
    }
    Ok(value)
}

/// The elements, and one more.
fn one_more(alloc: Global, items: &[Value], x: Value) -> Result<Items<Value>, OutOfMemory>
    ensures { IfOk result (λ all. all ≡ items.now ++ x ∷ []) }
{
    let mut all = copy_values(alloc, items)?;
    all.push(x)?;
    Ok(all)
}

/// A list with one more element.
fn longer(alloc: Global, items: &[Value], x: Value) -> Result<Value, Stop>
    ensures { (st : TheDoing) → Gives (lift_to st (longer items.now x)) result st }
{
    if items.len() >= MAX_ELEMENTS {
        return Err(Stop::Faulted(Fault::Argument));
    }
    let list = Value::List(Shared::new(alloc, one_more(alloc, items, x)?)?);
    within_sizes(list).map_err(Stop::Faulted)
}

fn with_last(alloc: Global, x: Value, held: &Value) -> Result<Value, Stop>
    ensures { (st : TheDoing) → Gives (lift_to st (with_last x held.now)) result st }
{
    match held {
        Value::List(items) => longer(alloc, items.get().as_slice(), x),
        Value::Int(_)
        | Value::True
        | Value::False
        | Value::Nothing
        | Value::Text(_)
        | Value::Range(_)
        | Value::Tuple(_)
        | Value::Grid(_)
        | Value::Exception(_)
        | Value::Future(_) => Err(Stop::Faulted(Fault::BadType)),
    }
}

/// The list that `push!` makes of that of a variable.
#[tactic(auto, unfolding(crate::specs::Running::grown))]
fn grown(alloc: Global, name: &Shared<Txt>, x: Value, doing: &Doing) -> Result<Value, Stop>
    ensures { Gives (spec.grown name.now x doing.now) result doing.now }
{
    match doing.variables.get(name.get()) {
        Some(held) => with_last(alloc, x, held),
        None => Err(Stop::Faulted(Fault::Undef(name.share()?))),
    }
}

#[tactic(auto, unfolding(crate::specs::Running::push))]
pub(crate) fn push(
    alloc: Global,
    name: &Shared<Txt>,
    x: &Expr,
    doing: &mut Doing,
) -> Result<Reached, Stop>
    ensures { Gives (spec.push name.now x.now doing.old) result doing.new }
{
    let value = eval(alloc, x, &doing.variables, &mut doing.left)?;
    let list = grown(alloc, name, value, doing)?;
    set(name.get(), &list, doing)?;
    Ok(Reached::Went(Flow::Next(list)))
}
