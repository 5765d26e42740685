//! A worker of the simulated cluster.

use jd_node::{Mail, Node};

/// A worker with the links to it.
#[derive(Drop)]
pub(crate) struct Worker {
    pub node: Node,
    /// The messages on the links to it, by the process that they come from.
    pub links: Mail,
}
