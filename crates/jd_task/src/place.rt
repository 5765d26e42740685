//! Places: what tasks have still to do.
ghost use Rattle.std.specs.Prelude.{◌≡◌, OnOk, IfOk};
ghost use Rattle.jd_value.specs.declared.tree.Body.{out-Body};
ghost use Rattle.jd_expr.specs.Variables.{with_value};
ghost use Rattle.jd_task.specs.Places.{with_variables, with_arguments, start_of, called_place, main_place};

use crate::closure::Closure;
use crate::frame::{Frame, in_block};
use jd_expr::{Env, Variable};
use jd_value::{Body, OutOfMemory, Program, Txt, Value};
use sqlite_items::Items;
use std::alloc::Global;

/// What a task has still to do.
#[derive(Drop)]
pub struct Place {
    /// What stands round the place, the innermost first.
    pub frames: Items<Frame>,
    pub variables: Env,
}

/// Gives a variable that value.
fn set(name: &Txt, value: &Value, variables: &mut Env) -> Result<(), OutOfMemory>
    ensures { OnOk result (variables.new ≡ with_value name.now value.now variables.old) }
{
    variables.set(name, value.copy()?)
}

/// Gives the variables their values, in order.
fn set_all(kept: &[Variable], variables: &mut Env) -> Result<(), OutOfMemory>
    ensures { OnOk result (variables.new ≡ with_variables kept.now variables.old) }
{
    for variable in kept {
        set(variable.name.get(), &variable.value, variables)?;
    }
    Ok(())
}

/// Gives the parameters the arguments, in order.
fn set_arguments(
    mut parameters: &[Txt],
    mut args: &[Value],
    variables: &mut Env,
) -> Result<(), OutOfMemory>
    ensures { OnOk result (variables.new ≡ with_arguments parameters.entry.now args.entry.now variables.old) }
{
    while let [parameter, others @ ..] = parameters {
        match args {
            [] => {
                variables.unset(parameter);
            }
            [arg, more @ ..] => {
                set(parameter, arg, variables)?;
                args = more;
            }
        }
        parameters = others;
    }
    Ok(())
}

fn start_of(alloc: Global, body: &Body, variables: Env) -> Result<Place, OutOfMemory>
    ensures { IfOk result (λ place. place ≡ start_of body.now variables) }
{
    Ok(Place {
        frames: in_block(Items::new(alloc), &body.block, 0)?,
        variables,
    })
}

/// Gives the names that the code keeps, and then its parameters, their values.
fn set_called(code: &Closure, args: &[Value], variables: &mut Env) -> Result<(), OutOfMemory>
    ensures { OnOk result (variables.new ≡ with_arguments (out-Body code.now.body).parameters args.now (with_variables code.now.kept variables.old)) }
{
    set_all(code.kept.as_slice(), variables)?;
    set_arguments(code.body.parameters.get().as_slice(), args, variables)
}

#[tactic(auto, unfolding(crate::specs::Places::called_place))]
fn called_place(alloc: Global, code: &Closure, args: &[Value]) -> Result<Place, OutOfMemory>
    ensures { IfOk result (λ place. place ≡ called_place code.now args.now) }
{
    let mut variables = Env::new(alloc);
    set_called(code, args, &mut variables)?;
    start_of(alloc, &code.body, variables)
}

impl Place {
    /// Where main begins.
    #[tactic(auto, unfolding(crate::specs::Places::main_place))]
    pub fn of_main(alloc: Global, program: &Program) -> Result<Place, OutOfMemory>
        ensures { IfOk result (λ place. place ≡ main_place program.now) }
    {
        start_of(alloc, &program.body, Env::new(alloc))
    }

    /// Where a called task begins: the parameters have the arguments. One without an argument has no value, and an
    /// argument without a parameter is dropped.
    pub fn of_call(alloc: Global, code: Closure, args: Items<Value>) -> Result<Place, OutOfMemory>
        ensures { IfOk result (λ place. place ≡ called_place code args) }
    {
        called_place(alloc, &code, args.as_slice())
    }
}
