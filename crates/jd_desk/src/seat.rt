//! A thread's right to take turns at a desk.
use crate::logged::Logged;
use crate::rule::View;
use std::collections::LinkedList;
use std::marker::{Brand, Model, PhantomData};

/// Names the table of one desk. A desk and its seats have the same name, so that no seat is used at another desk.
pub trait DeskName {
    ghost use Rattle.atomic_table.specs.Seated.{TableId};

    ghost table: { TableId };
}

// A call that passes `Brand` picks the table in its proof, from its arguments: that of the `UnnamedDesk` that it is given.
impl DeskName for Brand {
    ghost use Rattle.jd_desk.specs.Holding.{no_table};

    ghost table = { no_table };
}

/// What contracts see of a seat. No value of it is made.
pub struct Holding<E> {
    /// How many of the desk's shares the seat has.
    pub shares: u64,
    /// The entries that were appended in its turns, each with its place in the list, counted from 0.
    pub entries: LinkedList<(u64, E)>,
    /// The lists that its turns left, in the order of the turns.
    pub seen: LinkedList<LinkedList<E>>,
}

/// A thread's right to take turns at the desk of this name. Contracts see it as its `Holding`.
#[derive(Drop)]
pub struct Seat<T: Logged, N: DeskName> {
    pub(crate) pass: atomic_table::Seat<T, View<T::Entry>>,
    pub(crate) name: PhantomData<N>,
}

impl<T: Logged, N: DeskName> Model for Seat<T, N> {
    ghost use Rattle.std.specs.Prelude.{◌≡◌, ◌<◌, []};
    ghost use Rattle.jd_desk.specs.declared.seat.Holding.{Holding};
    ghost use Rattle.jd_desk.specs.Views.{seat_view};

    ghost Value = { Holding T.Entry };

    ghost view = { λ s. s.pass.me.0.held };

    ghost invariant = { λ s.
        (s.pass.table_id ≡ N.table)
        × (s.pass.me ≡ (seat_view s.pass.me.0.held, []))
        × (0 < s.pass.me.0.held.shares) };
}
