//! Bodies with the values that they keep.
ghost use Rattle.std.specs.Prelude.{◌≡◌, ◌++◌, IfOk, OnOk};
ghost use Rattle.std.specs.Option.{option_map};
ghost use Rattle.jd_expr.specs.Variables.{value_of};
ghost use Rattle.jd_task.specs.Names as spec;
ghost use Rattle.jd_task.specs.Names.{free_names, variables_named, closure_of};

use crate::names::push_free_names;
use jd_expr::{Env, Variable};
use jd_value::{Body, OutOfMemory, Shared, Txt};
use sqlite_items::Items;
use std::alloc::Global;

/// A body with the values that its free variables had when it was made.
#[derive(Drop)]
pub struct Closure {
    pub body: Body,
    /// The names that the body uses and doesn't bind, in the order of their first use; one without a value is left out.
    pub kept: Items<Variable>,
}

/// Adds the variable of this name, if it has a value.
fn push_kept(
    name: &Shared<Txt>,
    variables: &Env,
    kept: &mut Items<Variable>,
) -> Result<(), OutOfMemory>
    ensures { OnOk result (kept.new ≡ kept.old ++ spec.kept name.now (value_of name.now variables.now)) }
{
    if let Some(value) = variables.get(name.get()) {
        kept.push(Variable {
            name: name.share()?,
            value: value.copy()?,
        })?;
    }
    Ok(())
}

fn kept_of(
    alloc: Global,
    names: &[Shared<Txt>],
    variables: &Env,
) -> Result<Items<Variable>, OutOfMemory>
    ensures { IfOk result (λ all. all ≡ variables_named names.now variables.now) }
{
    let mut all = Items::new(alloc);
    for name in names {
        push_kept(name, variables, &mut all)?;
    }
    Ok(all)
}

/// The body, if there is one, with the values that it keeps of these variables. It takes time in proportion to the
/// size of the body.
pub(crate) fn captured(
    alloc: Global,
    body: &Option<Body>,
    variables: &Env,
) -> Result<Option<Closure>, OutOfMemory>
    ensures { IfOk result (λ closure. closure ≡ option_map (closure_of variables.now) body.now) }
{
    match body {
        None => Ok(None),
        Some(body) => Ok(Some(Closure::of(alloc, body, variables)?)),
    }
}

/// The values that a body keeps of these variables.
fn kept_by(alloc: Global, body: &Body, variables: &Env) -> Result<Items<Variable>, OutOfMemory>
    ensures { IfOk result (λ all. all ≡ variables_named (free_names body.now) variables.now) }
{
    let mut names = Items::new(alloc);
    push_free_names(alloc, body, &mut names)?;
    kept_of(alloc, names.as_slice(), variables)
}

fn copy_variables(alloc: Global, variables: &[Variable]) -> Result<Items<Variable>, OutOfMemory>
    ensures { IfOk result (λ all. all ≡ variables.now) }
{
    let mut all = Items::new(alloc);
    for variable in variables {
        all.push(variable.copy()?)?;
    }
    Ok(all)
}

impl Closure {
    /// The body with the values that it keeps of these variables.
    fn of(alloc: Global, body: &Body, variables: &Env) -> Result<Closure, OutOfMemory>
        ensures { IfOk result (λ closure. closure ≡ closure_of variables.now body.now) }
    {
        Ok(Closure {
            body: body.share()?,
            kept: kept_by(alloc, body, variables)?,
        })
    }

    /// The same closure once more. It takes time in proportion to the number of kept values.
    pub fn copy(&self, alloc: Global) -> Result<Closure, OutOfMemory>
        ensures { IfOk result (λ c. c ≡ self.now) }
    {
        Ok(Closure {
            body: self.body.share()?,
            kept: copy_variables(alloc, self.kept.as_slice())?,
        })
    }
}
