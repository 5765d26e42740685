//! What the workers of the simulated cluster do.
ghost use Rattle.std.specs.Prelude.{◌≡◌, ◌≢◌, ℕ, ◌+◌, ◌<◌, ◌≤◌, ◌^◌, IfOk, IfErr, OnOk, OnErr, ◌⊎◌, MatchOption, MatchBool, List, [], ◌∷◌, ◌++◌, map, true, false, None, Some};
ghost use Rattle.std.specs.Ordering.{nat_cmp};
ghost use Rattle.std.specs.BTreeMap.{get, Updates};
ghost use Rattle.jd_task.specs.declared.msg.Msg.{Msg as Message};
ghost use Rattle.jd_model.specs.Table.{put, put2};
ghost use Rattle.jd_model.specs.Node.{first_node, ran};
ghost use Rattle.jd_node.specs.Steps.{run_passes};
ghost use Rattle.jd_node.specs.declared.fault.NodeFault.TheVariants as fault;
ghost use Rattle.jd_world.specs.Workers.{nodes_of, links_to, no_links, EmitsAt, ArrivesAt, RunsAt};

use crate::process;
use crate::worker::Worker;
use crate::workers::Workers;
use jd_model::Mark;
use jd_node::{Mail, Node, NodeFault};
use jd_task::Msg;
use jd_value::OutOfMemory;
use std::alloc::Global;
use std::collections::BTreeMap;

/// Puts a worker under its number.
fn place(rows: &mut BTreeMap<u32, Worker>, number: u32, worker: Worker) -> Result<(), OutOfMemory>
    ensures ok { OnOk result (Updates nat_cmp rows.old rows.new number (Some worker)) }
    ensures err { OnErr result (rows.new.entries ≡ rows.old.entries) }
{
    drop(rows.insert(number, worker)?);
    Ok(())
}

#[tactic(auto, unfolding(crate::specs::Workers::nodes_of, crate::specs::Workers::links_to))]
impl Workers {
    /// So many workers, from process 2 on, to which nothing was sent.
    pub fn new(alloc: Global, count: u32) -> Workers
        requires { count + 1 < 2 ^ 32 }
        ensures nodes { nodes_of result ≡ (λ p. first_node count) }
        ensures links { links_to result ≡ no_links }
        ensures count { result.count ≡ count }
    {
        Workers {
            alloc,
            count,
            rows: BTreeMap::new(alloc),
        }
    }

    /// Whether the process is one of the workers.
    pub fn is_worker(&self, process: u32) -> bool
        ensures worker { result ≡ true → (2 ≤ process) × (process ≤ self.now.count + 1) }
        ensures other { result ≡ false → (process ≤ 1) ⊎ (self.now.count + 1 < process) }
    {
        process >= 2 && u64::from(process) <= u64::from(self.count) + 1
    }

    /// The message stands at the end of the link between these processes.
    pub fn send(&mut self, from: u32, to: u32, msg: Msg) -> Result<(), OutOfMemory>
        ensures nodes { OnOk result (nodes_of self.new ≡ nodes_of self.old) }
        ensures links { OnOk result (links_to self.new ≡ put2 (links_to self.old) to from (links_to self.old to from ++ msg ∷ [])) }
        ensures count { self.new.count ≡ self.old.count }
    {
        match self.rows.get_mut(&to) {
            None => self.send_first(from, to, msg),
            Some(worker) => match worker.links.push(from, msg) {
                Ok(()) => Ok(()),
                Err(_) => Err(OutOfMemory),
            },
        }
    }

    /// The message is the first thing that is sent to the worker.
    fn send_first(&mut self, from: u32, to: u32, msg: Msg) -> Result<(), OutOfMemory>
        requires { get nat_cmp self.old.rows to ≡ None }
        ensures nodes { OnOk result (nodes_of self.new ≡ nodes_of self.old) }
        ensures links { OnOk result (links_to self.new ≡ put2 (links_to self.old) to from (links_to self.old to from ++ msg ∷ [])) }
        ensures count { self.new.count ≡ self.old.count }
    {
        let mut worker = Worker {
            node: Node::new(self.alloc, to, self.count),
            links: Mail::new(self.alloc),
        };
        match worker.links.push(from, msg) {
            Ok(()) => place(&mut self.rows, to, worker),
            Err(refused) => {
                drop(worker);
                Err(refused)
            }
        }
    }

    /// Takes the oldest message of the first process to the second out of its outbox.
    pub fn emit(&mut self, from: u32, to: u32) -> Option<Msg>
        ensures nodes { MatchOption result (((nodes_of self.old from).outbox to ≡ []) × (nodes_of self.new ≡ nodes_of self.old)) (λ m. EmitsAt from to m (nodes_of self.old) (nodes_of self.new)) }
        ensures links { links_to self.new ≡ links_to self.old }
        ensures count { self.new.count ≡ self.old.count }
    {
        match self.rows.get_mut(&from) {
            None => None,
            Some(worker) => worker.node.emit(to),
        }
    }

    /// Whether a message of the first process to the second hasn't left.
    pub fn has_mail(&self, from: u32, to: u32) -> bool
        ensures { MatchBool result ((nodes_of self.now from).outbox to ≢ []) ((nodes_of self.now from).outbox to ≡ []) }
    {
        match self.rows.get(&from) {
            None => false,
            Some(worker) => worker.node.has_mail(to),
        }
    }

    /// The first message on the link between these processes arrives. False exactly where there is none.
    pub fn arrive(&mut self, from: u32, to: u32, marks: &mut Vec<Mark>) -> Result<bool, NodeFault>
        ensures none { IfOk result (λ went. went ≡ false → (links_to self.old to from ≡ []) × (nodes_of self.new ≡ nodes_of self.old) × (links_to self.new ≡ links_to self.old) × (marks.new.items ≡ marks.old.items)) }
        ensures went { IfOk result (λ went. went ≡ true → ArrivesAt to from self.old self.new marks.old.items marks.new.items) }
        ensures can { OnErr result (links_to self.old to from ≢ []) }
        ensures memory { IfErr result (λ e. e ≡ fault.OutOfMemory) }
        ensures err { OnErr result (marks.new.items ≡ marks.old.items) }
        ensures count { self.new.count ≡ self.old.count }
    {
        match self.rows.get_mut(&to) {
            None => Ok(false),
            Some(worker) => process::arrive(&mut worker.node, &mut worker.links, to, from, marks),
        }
    }

    /// The oldest task of a worker that can go on goes on. False exactly where there is none.
    pub fn go_on(&mut self, number: u32, marks: &mut Vec<Mark>) -> Result<bool, NodeFault>
        ensures none { IfOk result (λ went. went ≡ false → (ran number (nodes_of self.old number) (nodes_of self.old number).ready ≡ None) × (nodes_of self.new ≡ nodes_of self.old) × (marks.new.items ≡ marks.old.items)) }
        ensures went { IfOk result (λ went. went ≡ true → RunsAt number self.old self.new marks.old.items marks.new.items) }
        ensures can { OnErr result (ran number (nodes_of self.old number) (nodes_of self.old number).ready ≢ None) }
        ensures limit { IfErr result (λ e. e ≡ fault.Limit → run_passes (nodes_of self.old number) ≡ true) }
        ensures err { OnErr result (marks.new.items ≡ marks.old.items) }
        ensures links { links_to self.new ≡ links_to self.old }
        ensures count { self.new.count ≡ self.old.count }
    {
        match self.rows.get_mut(&number) {
            None => Ok(false),
            Some(worker) => process::go_on(&mut worker.node, number, marks),
        }
    }
}
