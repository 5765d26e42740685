//! What a cluster and the reference machine have in common, whatever happens.
//!
//! The contracts of `laws` are the laws: a cluster stands for the replay of its record (`Refines.Stands` of jd_model)
//! when it starts, through every event of a worker or a link and every step of process 1; a record's beginnings can be
//! replayed; and where no event is possible, the machine has no legal mark. The layer above, which runs the session of
//! process 1 over an outside, keeps `Stands` by them. They are theory over plain definitions: the crate has no data of
//! its own, and stands on jd_model.
#![tactic(auto)]

pub mod laws;
