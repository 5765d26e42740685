//! The desk: a value under a lock, and the turns that threads take at it.
ghost use Rattle.std.specs.Prelude.{◌≡◌, ◌-◌, ◌≤◌, [], IfOk, All};
ghost use Rattle.std.specs.Fn.{FnOnceTakesAtMut, FnOnceReturnsAtMut};
ghost use Rattle.jd_desk.specs.Holding.{only_shares, both_held, FitsList, IsPrefix, IsWhole, TakesTurn};
ghost use Rattle.jd_desk.specs.Views.{book_view};

use crate::logged::Logged;
use crate::rule::{Add, JoinAll, Look, SHARES, SharedList, SplitAll, SplitShare, View};
use crate::seat::{DeskName, Seat};
use atomic_table::{Shared, Table};
use std::alloc::{AllocError, Global};
use std::marker::{Model, PhantomData};
use std::sync::{Mutex, Wait};

type Pass<T> = atomic_table::Seat<T, View<<T as Logged>::Entry>>;

// What is under the lock: the value, and the token that has its list.
#[derive(Drop)]
struct Locked<T: Logged, N: DeskName> {
    value: T,
    book: Pass<T>,
    name: PhantomData<N>,
}

impl<T: Logged, N: DeskName> Model for Locked<T, N> {
    ghost Value = { T };

    ghost view = { λ s. s.value };

    ghost invariant = { λ s. (s.book.table_id ≡ N.table) × (s.book.me ≡ (book_view (T.log s.value), [])) };
}

/// A value that threads take turns at, each with a seat of its own.
#[derive(Drop)]
pub struct Desk<T: Logged, N: DeskName> {
    table: Table<T, View<T::Entry>, (), SharedList, Global>,
    lock: Mutex<Locked<T, N>>,
    ghost named: { table.shared.table_id ≡ N.table },
    ghost word: { table.shared.table_id.words ≡ 1 },
}

/// A desk that has no name yet. Contracts see its value, and the table that it will be named for.
///
/// A desk is made by two calls, since its table is known only once it is made: `new` makes it, and the name that
/// `named` takes is picked where that is called.
#[derive(Drop)]
pub struct UnnamedDesk<T: Logged> {
    value: T,
    table: Table<T, View<T::Entry>, (), SharedList, Global>,
    pass: Pass<T>,
}

impl<T: Logged> Model for UnnamedDesk<T> {
    ghost use Rattle.std.specs.Prelude.{◌≡◌, []};
    ghost use Rattle.jd_desk.specs.Holding.{Unnamed};
    ghost use Rattle.jd_desk.specs.Views.{first_view};

    ghost Value = { Unnamed T };

    ghost view = { λ s. record { value = s.value; table = s.table.shared.table_id } };

    ghost invariant = { λ s.
        (s.pass.me ≡ (first_view, [])) × (T.log s.value ≡ [])
        × (s.pass.table_id ≡ s.table.shared.table_id)
        × (s.table.shared.table_id.words ≡ 1) };
}

impl<T: Logged> UnnamedDesk<T> {
    /// Makes a desk for a value whose list is empty. Only memory can be missing.
    pub fn new(alloc: Global, value: T) -> Result<UnnamedDesk<T>, AllocError>
    where
        T: Drop,
        requires { T.log value ≡ [] }
        ensures { IfOk result (λ unnamed. unnamed.value ≡ value) }
    {
        let (table, pass) = Table::of_words(alloc, &[0], &())?;
        Ok(UnnamedDesk { value, table, pass })
    }

    /// The desk under a name for its table, and its first seat, with all shares and no entry. Takes no memory.
    pub fn named<N: DeskName>(self) -> (Desk<T, N>, Seat<T, N>)
        requires { self.table ≡ N.table }
        ensures { result.1 ≡ only_shares SHARES }
    {
        let UnnamedDesk {
            value,
            table,
            mut pass,
        } = self;
        let first = table.shared.split_seat::<SplitAll>(&mut pass);
        let lock = Mutex::new(Locked {
            value,
            book: pass,
            name: PhantomData,
        });
        let seat = Seat {
            pass: first,
            name: PhantomData,
        };
        (Desk { table, lock }, seat)
    }
}

impl<T: Logged, N: DeskName> Locked<T, N> {
    // One turn, under the lock. A step changes one view, and a turn changes two, the book's and the seat's: so all that
    // the seat holds goes to the book, the step is made there, and it goes back.
    fn turn<X, F: FnOnce(&mut T) -> X>(
        &mut self,
        shared: &Shared<T, View<T::Entry>, (), SharedList>,
        seat: &mut Seat<T, N>,
        call: F,
    ) -> X
        requires named { (shared.now.table_id ≡ N.table) × (shared.now.table_id.words ≡ 1) }
        requires may { FitsList (T.log self.old) seat.old → FnOnceTakesAtMut F.FnOnce call self.old }
        requires grows { (answer : X) (left : T)
            → FitsList (T.log self.old) seat.old
            → FnOnceReturnsAtMut F.FnOnce call self.old answer left
            → IsPrefix (T.log self.old) (T.log left) }
        ensures called { FnOnceReturnsAtMut F.FnOnce call self.old result self.new }
        ensures turn { TakesTurn (T.log self.old) (T.log self.new) seat.old seat.new }
    {
        let held = shared.split_seat::<SplitAll>(&mut seat.pass);
        shared.join_seat::<JoinAll>(&mut self.book, held);
        // Tells that what the seat holds is true of the list, which the call may use.
        shared.load::<Look>(&mut self.book, 0);
        let found = self.value.entries();
        let answer = call(&mut self.value);
        let left = self.value.entries();
        shared.compare_exchange_with::<Add>(&mut self.book, 0, found, left, &self.value);
        seat.pass = shared.split_seat::<SplitAll>(&mut self.book);
        answer
    }
}

impl<T: Logged, N: DeskName> Desk<T, N> {
    /// Waits for its turn, and makes the call. The seat's entries get exactly what the call appended, each with its place
    /// in the list. Takes no memory. No clause says when the turn comes.
    pub fn with<R: Wait, X, F: FnOnce(&mut T) -> X>(
        &self,
        rt: &R,
        seat: &mut Seat<T, N>,
        call: F,
    ) -> X
        // Of the list that it finds, the call may use that what the seat holds is true of it.
        requires may { (found : T) → FitsList (T.log found) seat.old → FnOnceTakesAtMut F.FnOnce call found }

        // The list that the call leaves begins with the list that it finds.
        requires grows { (found left : T) (answer : X)
            → FitsList (T.log found) seat.old
            → FnOnceReturnsAtMut F.FnOnce call found answer left
            → IsPrefix (T.log found) (T.log left) }

        ensures { (found left : T)
            × FnOnceReturnsAtMut F.FnOnce call found result left
            × TakesTurn (T.log found) (T.log left) seat.old seat.new }
    {
        let mut guard = self.lock.lock(rt);
        let locked = &mut *guard;
        locked.turn(&self.table.shared, seat, call)
    }

    /// A new seat with one share of this one's, and no entry. Takes no memory.
    pub fn split(&self, seat: &mut Seat<T, N>) -> Seat<T, N>
        requires { 2 ≤ seat.old.shares }
        ensures kept { seat.new ≡ record seat.old { shares = seat.old.shares - 1 } }
        ensures new { result ≡ only_shares 1 }
    {
        let pass = self.table.shared.split_seat::<SplitShare>(&mut seat.pass);
        Seat {
            pass,
            name: PhantomData,
        }
    }

    /// Gives the seat the shares, the entries and the lists seen of the other. Takes no memory.
    pub fn join(&self, seat: &mut Seat<T, N>, other: Seat<T, N>)
        ensures { seat.new ≡ both_held seat.old other }
    {
        let Seat { pass, name: _ } = other;
        self.table.shared.join_seat::<JoinAll>(&mut seat.pass, pass);
    }

    /// The value, for the seat that has all shares. That seat's entries are the whole list, and the list begins with each
    /// list that it saw. Takes no memory.
    pub fn close(self, seat: Seat<T, N>) -> T
    where
        T: Drop,
        requires { seat.shares ≡ SHARES }
        ensures whole { IsWhole (T.log result) seat.entries }
        ensures seen { All (λ xs. IsPrefix xs (T.log result)) seat.seen }
    {
        let Desk { table, lock } = self;
        let Locked {
            value,
            mut book,
            name: _,
        } = lock.into_inner();
        let Seat { pass, name: _ } = seat;
        table.shared.join_seat::<JoinAll>(&mut book, pass);
        table.shared.load::<Look>(&mut book, 0);
        value
    }
}
