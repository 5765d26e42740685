//! Messages that wait, in a queue for each process.
ghost use Rattle.std.specs.Prelude.{◌≡◌, ◌≢◌, ℕ, OnOk, MatchOption, MatchBool, IfOk, List, [], ◌∷◌, ◌++◌};
ghost use Rattle.jd_task.specs.declared.msg.Msg.{Msg as Message};
ghost use Rattle.jd_model.specs.Table.{put};
ghost use Rattle.jd_node.specs.Mail.{mail_of, no_mail};

use jd_task::Msg;
use jd_value::OutOfMemory;
use std::alloc::Global;
use std::collections::{BTreeMap, VecDeque};

/// Messages that wait, in a queue for each process that they go to, or for each that they come from.
#[derive(Drop)]
pub struct Mail {
    alloc: Global,
    queues: BTreeMap<u32, VecDeque<Msg>>,
}

fn queue_of(alloc: Global, msg: Msg) -> Result<VecDeque<Msg>, OutOfMemory>
    ensures { IfOk result (λ queue. queue.items ≡ msg ∷ []) }
{
    let mut queue = VecDeque::new(alloc);
    queue.push_back(msg)?;
    Ok(queue)
}

#[tactic(auto, unfolding(crate::specs::Mail::mail_of))]
impl Mail {
    pub fn new(alloc: Global) -> Mail
        ensures { mail_of result ≡ no_mail }
    {
        Mail {
            alloc,
            queues: BTreeMap::new(alloc),
        }
    }

    /// The message goes behind the others of that process.
    pub fn push(&mut self, process: u32, msg: Msg) -> Result<(), OutOfMemory>
        ensures { OnOk result (mail_of self.new ≡ put (mail_of self.old) process (mail_of self.old process ++ msg ∷ [])) }
    {
        if let Some(queue) = self.queues.get_mut(&process) {
            queue.push_back(msg)?;
            return Ok(());
        }
        let queue = queue_of(self.alloc, msg)?;
        self.set_queue(process, queue)
    }

    fn set_queue(&mut self, process: u32, queue: VecDeque<Msg>) -> Result<(), OutOfMemory>
        ensures { OnOk result (mail_of self.new ≡ put (mail_of self.old) process queue.items) }
    {
        drop(self.queues.insert(process, queue)?);
        Ok(())
    }

    /// Takes the oldest message of that process. It takes no memory.
    pub fn pop(&mut self, process: u32) -> Option<Msg>
        ensures { MatchOption result ((mail_of self.old process ≡ []) × (mail_of self.new ≡ mail_of self.old)) (λ m. (rest : List Message) × (mail_of self.old process ≡ m ∷ rest) × (mail_of self.new ≡ put (mail_of self.old) process rest)) }
    {
        match self.queues.get_mut(&process) {
            None => None,
            Some(queue) => queue.pop_front(),
        }
    }

    /// Whether a message of that process waits.
    pub fn has(&self, process: u32) -> bool
        ensures { MatchBool result (mail_of self.now process ≢ []) (mail_of self.now process ≡ []) }
    {
        match self.queues.get(&process) {
            None => false,
            Some(queue) => !queue.is_empty(),
        }
    }

    /// The first process of which a message waits. None exactly where none waits. It looks at the queues in turn.
    pub fn first(&self) -> Option<u32>
        ensures { MatchOption result ((q : ℕ) → mail_of self.now q ≡ []) (λ q. mail_of self.now q ≢ []) }
    {
        for process in self.queues.keys() {
            if self.has(*process) {
                return Some(*process);
            }
        }
        None
    }
}
