//! A task is handed out and goes on.
ghost use Rattle.std.specs.Prelude.{◌≡◌, ℕ, MatchOption, IfOk, IfErr, None, Some, is_some, true, false, ◌↔◌, Err};
ghost use Rattle.jd_model.specs.Node as spec;
ghost use Rattle.jd_node.specs.declared.fault.NodeFault.TheVariants as fault;
ghost use Rattle.jd_node.specs.View.{node_of, id_of, stepped_of};
ghost use Rattle.jd_node.specs.Steps.{HandsOut, is_ready_at, job_at, run_passes};

use crate::fault::NodeFault;
use crate::node::Node;
use crate::rows::Running;
use jd_model::Stage;
use jd_task::{Job, TaskId};

/// The job of a task that can go on.
fn job_of(task: TaskId, row: Running) -> Option<Job>
    ensures { result ≡ job_at task row row.stage }
{
    let Running { cell, place, stage } = row;
    match stage {
        Stage::Ready(answer) => Some(Job {
            task,
            cell,
            place,
            answer,
        }),
        Stage::Waits(_) | Stage::Prints(_) => None,
    }
}

impl Node {
    fn can_go_on(&self, task: TaskId) -> bool
        ensures { result ≡ is_ready_at ((node_of self.now).tasks task.process task.number) }
    {
        match self.tasks.at(task) {
            None => false,
            Some(row) => match &row.stage {
                Stage::Ready(_) => true,
                Stage::Waits(_) | Stage::Prints(_) => false,
            },
        }
    }

    /// Whether a task can go on.
    pub fn ready(&self) -> bool
        // Whatever the number of the process.
        ensures { (p : ℕ) → result ≡ is_some (spec.ran p (node_of self.now) (node_of self.now).ready) }
    {
        match self.ready.front() {
            None => false,
            Some(task) => self.can_go_on(*task),
        }
    }

    /// Hands out the oldest task that can go on. None exactly where there is none. It takes no memory.
    pub fn run(&mut self) -> Option<Job>
        ensures job { MatchOption result ((spec.ran (id_of self.old) (node_of self.old) (node_of self.old).ready ≡ None) × (node_of self.new ≡ node_of self.old)) (λ job. HandsOut (node_of self.old) job (node_of self.new)) }
        ensures id { id_of self.new ≡ id_of self.old }
    {
        let task = match self.ready.front() {
            None => return None,
            Some(task) => *task,
        };
        if !self.can_go_on(task) {
            return None;
        }
        let _ = self.ready.pop_front();
        match self.tasks.take(task) {
            None => None,
            Some(row) => job_of(task, row),
        }
    }

    /// The oldest task that can go on goes on, to its next operation or its end. False exactly where there is none, and
    /// `Limit` only where a number of the process would have to rise above the greatest. After a fault the node is used
    /// no more.
    pub fn go_on(&mut self) -> Result<bool, NodeFault>
        ensures none { IfOk result (λ went. went ≡ false → (spec.ran (id_of self.old) (node_of self.old) (node_of self.old).ready ≡ None) × (node_of self.new ≡ node_of self.old)) }
        ensures went { IfOk result (λ went. went ≡ true → spec.ran (id_of self.old) (node_of self.old) (node_of self.old).ready ≡ Some (stepped_of self.new)) }
        ensures limit { IfErr result (λ e. e ≡ fault.Limit → run_passes (node_of self.old) ≡ true) }
        ensures id { id_of self.new ≡ id_of self.old }
    {
        let job = match self.run() {
            None => return Ok(false),
            Some(job) => job,
        };
        let done = match job.evaluate(self.alloc) {
            Ok(done) => done,
            Err(_) => return Err(NodeFault::OutOfMemory),
        };
        match self.finish(done) {
            Ok(()) => Ok(true),
            Err(fault) => Err(fault),
        }
    }
}
