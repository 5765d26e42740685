//! What a node shows, and what leaves it.
ghost use Rattle.std.specs.Prelude.{◌≡◌, ◌≢◌, ℕ, ◌+◌, ◌<◌, ◌^◌, IfOk, IfErr, OnOk, MatchOption, MatchBool, []};
ghost use Rattle.std.specs.Option.{option_copied, option_map};
ghost use Rattle.jd_model.specs.Node as spec;
ghost use Rattle.jd_node.specs.View.{node_of, effects_of, id_of};
ghost use Rattle.jd_node.specs.declared.fault.NodeFault.TheVariants.{OutOfMemory};
ghost use Rattle.jd_node.specs.Steps.{Sends};

use crate::asks::Asks;
use crate::cells::Cells;
use crate::fault::NodeFault;
use crate::mail::Mail;
use crate::node::Node;
use crate::tasks::Tasks;
use crate::waits::Waits;
use jd_model::{Effect, Stage};
use jd_task::{Msg, Place, TaskId};
use jd_value::{OutOfMemory as NoMemory, Outcome, Program, Value};
use std::alloc::Global;
use std::collections::VecDeque;

/// The name of main's task.
const MAIN: TaskId = TaskId {
    process: 1,
    number: 0,
};

impl Node {
    /// A process of this number without tasks, in a cluster with so many workers.
    pub fn new(alloc: Global, id: u32, workers: u32) -> Node
        requires { workers + 1 < 2 ^ 32 }
        ensures node { node_of result ≡ spec.first_node workers }
        ensures effects { effects_of result ≡ [] }
        ensures id { id_of result ≡ id }
    {
        Node {
            alloc,
            id,
            workers,
            tasks: Tasks::new(alloc),
            ready: VecDeque::new(alloc),
            cells: Cells::new(alloc),
            waits: Waits::new(alloc),
            asks: Asks::new(alloc),
            cache: Cells::new(alloc),
            called: 0,
            asked: 0,
            made: 0,
            noticed: Vec::new(alloc),
            outbox: Mail::new(alloc),
            main_end: None,
            effects: Vec::new(alloc),
        }
    }

    /// Process 1 with the main of the program ready to go on, in a cluster with so many workers.
    pub fn with_main(alloc: Global, program: &Program, workers: u32) -> Result<Node, NoMemory>
        requires { workers + 1 < 2 ^ 32 }
        ensures node { IfOk result (λ n. node_of n ≡ spec.main_node program.now workers) }
        ensures effects { IfOk result (λ n. effects_of n ≡ []) }
        ensures id { IfOk result (λ n. id_of n ≡ 1) }
    {
        let place = Place::of_main(alloc, program)?;
        let mut node = Node::new(alloc, 1, workers);
        match node.make_ready(MAIN, None, place, Ok(Value::Nothing)) {
            Ok(()) => Ok(node),
            Err(refused) => {
                drop(node);
                Err(refused)
            }
        }
    }

    /// The number of the process.
    pub fn id(&self) -> u32
        ensures { result ≡ id_of self.now }
    {
        self.id
    }

    /// The effects of the last step, in their order.
    pub fn effects(&self) -> &[Effect]
        ensures { result.now ≡ effects_of self.now }
    {
        self.effects.as_slice()
    }

    /// Takes the oldest message to that process out. None exactly where there is none.
    pub fn emit(&mut self, to: u32) -> Option<Msg>
        ensures sent { MatchOption result (((node_of self.old).outbox to ≡ []) × (node_of self.new ≡ node_of self.old)) (λ m. Sends (node_of self.old) to m (node_of self.new)) }
        ensures id { id_of self.new ≡ id_of self.old }
    {
        self.outbox.pop(to)
    }

    /// Whether a message to that process hasn't left.
    pub fn has_mail(&self, to: u32) -> bool
        ensures { MatchBool result ((node_of self.now).outbox to ≢ []) ((node_of self.now).outbox to ≡ []) }
    {
        self.outbox.has(to)
    }

    /// The first process to which a message hasn't left. None exactly where there is none.
    pub fn first_mail(&self) -> Option<u32>
        ensures { MatchOption result ((q : ℕ) → (node_of self.now).outbox q ≡ []) (λ q. (node_of self.now).outbox q ≢ []) }
    {
        self.outbox.first()
    }

    /// What main wants to print, where it does.
    pub fn main_line(&self) -> Option<&[Value]>
        ensures { option_map (λ values. values.now) result ≡ spec.main_line (node_of self.now) }
    {
        match self.tasks.at(MAIN) {
            None => None,
            Some(row) => match &row.stage {
                Stage::Prints(values) => Some(values.as_slice()),
                Stage::Ready(_) | Stage::Waits(_) => None,
            },
        }
    }

    /// How main ended. None exactly while it hasn't.
    pub fn main_end(&self) -> Option<&Outcome>
        ensures { option_copied result ≡ (node_of self.now).main_end }
    {
        self.main_end.as_ref()
    }

    /// Main gets the answer to what it asked.
    pub fn main_answer(&mut self, answer: Outcome) -> Result<(), NodeFault>
        ensures node { OnOk result (node_of self.new ≡ spec.main_answered (node_of self.old) answer) }
        ensures memory { IfErr result (λ e. e ≡ OutOfMemory) }
        ensures id { id_of self.new ≡ id_of self.old }
    {
        match self.give(MAIN, answer) {
            Ok(_) => Ok(()),
            Err(_) => Err(NodeFault::OutOfMemory),
        }
    }
}
