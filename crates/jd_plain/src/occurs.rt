//! Which references occur in the variables of running tasks.
ghost use Rattle.std.specs.Prelude.{◌≡◌, ◌||◌, OnOk, IfOk, option_map, slice_get};
ghost use Rattle.std.specs.HashSet.{contains};
ghost use Rattle.std.specs.List.{list_any};
ghost use Rattle.std.specs.Option.{option_copied};
ghost use Rattle.jd_value.specs.declared.reference.RefId.{RefId as Cell};
ghost use Rattle.jd_model.specs.Machine.{is_same, has, in_variables, in_task, mentions};
ghost use Rattle.jd_plain.specs.Held.{task_of};
ghost use Rattle.jd_plain.specs.Occurs.{is_in, in_variable, Adds};
ghost use Rattle.jd_plain.specs.Tables.{tasks_of};

use crate::task::Task;
use crate::tasks::Tasks;
use jd_expr::Env;
use jd_model::Life;
use jd_task::TaskId;
use jd_value::{OutOfMemory, RefId, Value, push_references};
use sqlite_items::Items;
use std::alloc::Global;
use std::collections::HashSet;

fn add(found: &mut HashSet<RefId>, cell: RefId) -> Result<(), OutOfMemory>
    ensures { OnOk result (Adds (λ r. is_same r cell) found.old found.new) }
{
    found.insert(cell)?;
    Ok(())
}

/// Adds these references.
fn add_all(found: &mut HashSet<RefId>, cells: &[RefId]) -> Result<(), OutOfMemory>
    ensures { OnOk result (Adds (has cells.now) found.old found.new) }
{
    for cell in cells {
        add(found, *cell)?;
    }
    Ok(())
}

/// Adds every reference in a value.
fn add_value(alloc: Global, found: &mut HashSet<RefId>, value: &Value) -> Result<(), OutOfMemory>
    ensures { OnOk result (Adds (mentions value.now) found.old found.new) }
{
    let mut cells = Items::new(alloc);
    push_references(value, &mut cells)?;
    add_all(found, cells.as_slice())
}

/// Adds the references in the variable at this place, if there is one.
fn add_variable(
    alloc: Global,
    found: &mut HashSet<RefId>,
    variables: &Env,
    place: usize,
) -> Result<(), OutOfMemory>
    ensures { OnOk result (Adds (in_variable (slice_get variables.now place)) found.old found.new) }
{
    match variables.variable_at(place) {
        Some((_, value)) => add_value(alloc, found, value),
        None => Ok(()),
    }
}

/// Adds the references in these variables.
fn add_variables(
    alloc: Global,
    found: &mut HashSet<RefId>,
    variables: &Env,
) -> Result<(), OutOfMemory>
    ensures { OnOk result (Adds (in_variables variables.now) found.old found.new) }
{
    for place in 0..variables.len() {
        add_variable(alloc, found, variables, place)?;
    }
    Ok(())
}

/// Adds the references in the variables of a task, if it runs on that process.
fn add_task(
    alloc: Global,
    found: &mut HashSet<RefId>,
    process: u32,
    task: Option<&Task>,
) -> Result<(), OutOfMemory>
    ensures { OnOk result (Adds (in_task process (option_map task_of (option_copied task.entry))) found.old found.new) }
{
    match task {
        Some(
            Task {
                home,
                life: Life::Running { place, .. },
                ..
            },
        ) => {
            if *home == process {
                add_variables(alloc, found, &place.variables)
            } else {
                Ok(())
            }
        }
        _ => Ok(()),
    }
}

/// The references in the variables of those of these tasks that run on that process.
pub fn occurring(
    alloc: Global,
    tasks: &Tasks,
    running: &[TaskId],
    process: u32,
) -> Result<HashSet<RefId>, OutOfMemory>
    ensures { IfOk result (λ found. (r : Cell) → is_in found r ≡ list_any (λ t. in_task process (tasks_of tasks.now t.process t.number) r) running.now) }
{
    let mut found = HashSet::new(alloc);
    for task in running {
        add_task(alloc, &mut found, process, tasks.get(*task))?;
    }
    Ok(found)
}
