//! The cluster as process 1 finds it: the fabric that carries its messages, and a simulated one.
//!
//! The layer above gets the trait `Fabric`, whose contracts say what each call does to the world outside and to the
//! record of effects, where they are told: the world moves by the possible events of its workers and links, and by no
//! others. `ListFabric` is a fabric over lists of messages that tells its world and takes the first possible event.
//! `World` is the whole cluster, process 1 included, of which `world_step` makes one event of the definition.
//! The crate stands on jd_node and on the definitions of jd_model.
#![tactic(auto)]

mod cluster;
mod fabric;
mod list_fabric;
mod outside;
mod possible;
mod process;
mod receive;
mod rows;
mod step;
mod step_fault;
mod worker;
mod workers;
mod world;

pub use cluster::{world_print, world_step};
pub use fabric::{Arrival, Fabric, FabricFault, LiveFabric};
pub use list_fabric::ListFabric;
pub use outside::Outside;
pub use possible::quiet;
pub use step::outside_step;
pub use step_fault::StepFault;
pub use world::World;
