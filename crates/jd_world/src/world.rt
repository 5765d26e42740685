//! The whole cluster.
ghost use Rattle.std.specs.Prelude.{◌≡◌};
ghost use Rattle.jd_node.specs.View.{id_of};

use crate::outside::Outside;
use jd_node::Node;

/// The node of process 1, and the world outside of it.
///
/// After a fault other than `NotPossible` and `Limit` it is used no more.
#[derive(Drop)]
pub struct World {
    pub(crate) hub: Node,
    pub(crate) outside: Outside,
    ghost numbered: { id_of hub ≡ 1 },
}
