//! Laws of tasks.
ghost use Rattle.std.specs.Prelude.{◌≡◌, ◌≤◌, ℕ, List, Result};
ghost use Rattle.jd_expr.specs.Variables.{Variables};
ghost use Rattle.jd_task.specs.Course.{resumed};
ghost use Rattle.jd_task.specs.Direct.{run_through, units_of_all};
ghost use Rattle.jd_task.specs.Running.{steps};
ghost use Rattle.jd_task.specs.declared.doing.Doing.{Doing as TheDoing};
ghost use Rattle.jd_value.specs.declared.fault.Fault.{Fault as TheFault};
ghost use Rattle.jd_value.specs.declared.tree.Body.{Body as TheBody};
ghost use Rattle.jd_value.specs.declared.tree.Stmt.{Stmt as TheStmt};
ghost use Rattle.jd_value.specs.declared.value.Value.{Value as TheValue};

/// The number of levels that the meaning of statements carries plays no part where it is no less than the units: the
/// meaning is that of a recursion on the statement alone.
pub fn more_fuel_changes_no_step()
    ensures { (fuel : ℕ) (x : TheStmt) (st : TheDoing) → st.left ≤ fuel → (steps fuel).exec x st ≡ (steps st.left).exec x st }
{}

/// Resuming is recursion. `resumed` begins a body and takes it from each operation to the next by `advance`, which is
/// what `Job::evaluate` does: what is still to do is kept as frames, and from these and the answer it goes on.
/// `run_through` runs the same body once, from its first statement to its last, by a recursion that knows of no frames:
/// there an operation is a call, which returns the answer that is next in the list, or raises it where it is a fault.
/// Both ask the same operations in the same order, each with the same closure and operands, leave the same variables,
/// and come to the same value, to the same fault, or to an operation that waits, since there are no more answers. So
/// nothing is left out or done twice where a task is resumed. Each answer begins a step, with its units anew; `fuel`, the
/// number of levels that the recursion carries, plays no part where it is no less than the units of all steps.
pub fn resuming_is_recursion()
    ensures { (fuel : ℕ) (body : TheBody) (vars : Variables) (answers : List (Result TheValue TheFault)) → units_of_all answers ≤ fuel → resumed body vars answers ≡ run_through fuel body vars answers }
{}
