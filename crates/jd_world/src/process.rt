//! The steps of a process, and their marks in the record.
ghost use Rattle.std.specs.Prelude.{◌≡◌, ◌≢◌, IfOk, IfErr, OnOk, OnErr, map, ◌++◌, [], true, false, None};
ghost use Rattle.jd_model.specs.Node.{ran};
ghost use Rattle.jd_model.specs.World.{marked};
ghost use Rattle.jd_node.specs.View.{node_of, id_of};
ghost use Rattle.jd_node.specs.Mail.{mail_of};
ghost use Rattle.jd_node.specs.Steps.{run_passes};
ghost use Rattle.jd_node.specs.declared.fault.NodeFault.TheVariants as fault;
ghost use Rattle.jd_world.specs.Workers.{Arrives, Runs};

use jd_model::{Effect, Mark};
use jd_node::{Mail, Node, NodeFault};
use std::alloc::AllocError;

/// Puts the effects of that process at the end of the record, or nothing.
fn record(marks: &mut Vec<Mark>, effects: &[Effect], by: u32) -> Result<(), AllocError>
    ensures ok { OnOk result (marks.new.items ≡ marks.old.items ++ map (marked by) effects.now) }
    ensures err { OnErr result (marks.new.items ≡ marks.old.items) }
{
    marks.reserve(effects.len())?;
    for effect in effects {
        marks.push(Mark {
            effect: *effect,
            by,
        })?;
    }
    Ok(())
}

/// The first message on the link from that process to the node of this number arrives. False exactly where there is none.
pub(crate) fn arrive(
    node: &mut Node,
    links: &mut Mail,
    number: u32,
    from: u32,
    marks: &mut Vec<Mark>,
) -> Result<bool, NodeFault>
    ensures none { IfOk result (λ went. went ≡ false → (mail_of links.old from ≡ []) × (mail_of links.new ≡ mail_of links.old) × (node_of node.new ≡ node_of node.old) × (marks.new.items ≡ marks.old.items)) }
    ensures went { IfOk result (λ went. went ≡ true → Arrives number from (node_of node.old) (node_of node.new) (mail_of links.old) (mail_of links.new) marks.old.items marks.new.items) }
    ensures can { OnErr result (mail_of links.old from ≢ []) }
    ensures memory { IfErr result (λ e. e ≡ fault.OutOfMemory) }
    ensures err { OnErr result (marks.new.items ≡ marks.old.items) }
    ensures id { id_of node.new ≡ id_of node.old }
{
    let msg = match links.pop(from) {
        None => return Ok(false),
        Some(msg) => msg,
    };
    match node.deliver(from, msg) {
        Ok(()) => {}
        Err(fault) => return Err(fault),
    }
    match record(marks, node.effects(), number) {
        Ok(()) => Ok(true),
        Err(_) => Err(NodeFault::OutOfMemory),
    }
}

/// The oldest task of the node of this number that can go on goes on. False exactly where there is none.
pub(crate) fn go_on(node: &mut Node, number: u32, marks: &mut Vec<Mark>) -> Result<bool, NodeFault>
    requires { id_of node.old ≡ number }
    ensures none { IfOk result (λ went. went ≡ false → (ran number (node_of node.old) (node_of node.old).ready ≡ None) × (node_of node.new ≡ node_of node.old) × (marks.new.items ≡ marks.old.items)) }
    ensures went { IfOk result (λ went. went ≡ true → Runs number (node_of node.old) (node_of node.new) marks.old.items marks.new.items) }
    ensures can { OnErr result (ran number (node_of node.old) (node_of node.old).ready ≢ None) }
    ensures limit { IfErr result (λ e. e ≡ fault.Limit → run_passes (node_of node.old) ≡ true) }
    ensures err { OnErr result (marks.new.items ≡ marks.old.items) }
    ensures id { id_of node.new ≡ id_of node.old }
{
    if !node.ready() {
        return Ok(false);
    }
    match node.go_on() {
        Ok(true) => {}
        Ok(false) => return Ok(false),
        Err(fault) => return Err(fault),
    }
    match record(marks, node.effects(), number) {
        Ok(()) => Ok(true),
        Err(_) => Err(NodeFault::OutOfMemory),
    }
}
