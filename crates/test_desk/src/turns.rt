//! Threads that take turns, run to their end.
ghost use Rattle.std.specs.Prelude.{◌≡◌, ℕ, ◌≤◌, List, ◌++◌, ◌∷◌, [], IfOk, OnErr, Any, length, true, false};
ghost use Rattle.jd_desk.specs.Holding.{IsPrefix};

use jd_desk::{Desk, DeskName, Logged, Seat, UnnamedDesk};
use std::alloc::{AllocError, Global};
use std::marker::{Brand, Model};
use std::sync::Wait;
use std::test::*;
use std::thread;
use std::thread::Threads;

const TURNS: u32 = 2000;

// A list of numbers.
#[derive(Drop)]
struct Tally {
    items: Vec<u32>,
}

impl Model for Tally {
    ghost Value = { List ℕ };

    ghost view = { λ t. t.items.items };
}

impl Logged for Tally {
    type Entry = u32;

    ghost log = { λ t. t };

    fn entries(&self) -> u64 {
        self.items.len() as u64
    }
}

impl Tally {
    fn new(alloc: Global) -> Tally
        ensures { result ≡ [] }
    {
        Tally {
            items: Vec::new(alloc),
        }
    }

    // Appends the number, and gives its place.
    fn append(&mut self, number: u32) -> Result<u64, AllocError>
        ensures ok { IfOk result (λ place. self.new ≡ self.old ++ number ∷ []) }
        ensures err { OnErr result (self.new ≡ self.old) }
    {
        let place = self.entries();
        self.items.push(number)?;
        Ok(place)
    }

    // Appends the number, unless the list has four: then it refuses, and changes nothing.
    fn offer(&mut self, number: u32) -> Result<bool, AllocError>
        ensures refused { IfOk result (λ taken. taken ≡ false → (self.new ≡ self.old) × (4 ≤ length self.old)) }
        ensures grows { IsPrefix self.old self.new }
    {
        if self.items.len() >= 4 {
            return Ok(false);
        }
        self.items.push(number)?;
        Ok(true)
    }

    fn into_items(self) -> Vec<u32>
        ensures { result.items ≡ self }
    {
        let Tally { items } = self;
        items
    }
}

// What one thread was told: the place of each number that it appended.
#[derive(Drop)]
struct Told {
    first: u32,
    places: Vec<u64>,
}

// Appends the numbers from `first` on, one in a turn.
fn take_turns<R: Wait, N: DeskName>(
    rt: &R,
    alloc: Global,
    desk: &Desk<Tally, N>,
    seat: &mut Seat<Tally, N>,
    first: u32,
) -> Result<Told, AllocError>
    ensures { seat.new.shares ≡ seat.old.shares }
{
    let mut places = Vec::new(alloc);
    for i in 0..TURNS {
        let number = first.wrapping_add(i);
        let place = desk.with(
            rt,
            seat,
            |tally: &mut Tally| -> Result<u64, AllocError>
                ensures grows { IsPrefix tally.old tally.new }
            { tally.append(number) },
        )?;
        places.push(place)?;
    }
    Ok(Told { first, places })
}

fn work<R: Wait, N: DeskName>(
    rt: &R,
    alloc: Global,
    desk: &Desk<Tally, N>,
    mut seat: Seat<Tally, N>,
    first: u32,
) -> (Result<Told, AllocError>, Seat<Tally, N>)
    ensures { result.1.shares ≡ seat.shares }
{
    let told = take_turns(rt, alloc, desk, &mut seat, first);
    (told, seat)
}

type Half = Result<(Told, Told), AllocError>;

// The final list, and what the four threads were told.
#[derive(Drop)]
struct Worked {
    items: Vec<u32>,
    left: Half,
    right: Half,
}

// Two threads with a share each.
fn work_in_two<R: Threads + Wait + Sync, N: DeskName + Send + Sync>(
    rt: &R,
    alloc: Global,
    desk: &Desk<Tally, N>,
    one: Seat<Tally, N>,
    two: Seat<Tally, N>,
    first: u32,
) -> (Half, Seat<Tally, N>, Seat<Tally, N>)
    requires { (one.shares ≡ 1) × (two.shares ≡ 1) }
    ensures { (result.1.shares ≡ 1) × (result.2.shares ≡ 1) }
{
    let ((told, one), (more, two)) = thread::join(
        rt,
        move || -> (Result<Told, AllocError>, Seat<Tally, N>)
            requires { one.shares ≡ 1 }
            ensures { result.1.shares ≡ 1 }
        { work(rt, alloc, desk, one, first) },
        move || -> (Result<Told, AllocError>, Seat<Tally, N>)
            requires { two.shares ≡ 1 }
            ensures { result.1.shares ≡ 1 }
        { work(rt, alloc, desk, two, first.wrapping_add(TURNS)) },
    );
    (both(told, more), one, two)
}

fn both<A: Drop, B: Drop>(
    one: Result<A, AllocError>,
    two: Result<B, AllocError>,
) -> Result<(A, B), AllocError> {
    Ok((one?, two?))
}

// Four threads, each with a seat that this one split off and takes in again.
fn work_in_four<R: Threads + Wait + Sync, N: DeskName + Send + Sync>(
    rt: &R,
    alloc: Global,
    unnamed: UnnamedDesk<Tally>,
) -> Worked
    requires { unnamed.table ≡ N.table }
{
    let (desk, mut seat) = unnamed.named::<N>();
    let one = desk.split(&mut seat);
    let two = desk.split(&mut seat);
    let three = desk.split(&mut seat);
    let four = desk.split(&mut seat);
    let shared = &desk;
    let ((left, one, two), (right, three, four)) = thread::join(
        rt,
        move || -> (Half, Seat<Tally, N>, Seat<Tally, N>)
            requires { (one.shares ≡ 1) × (two.shares ≡ 1) }
            ensures { (result.1.shares ≡ 1) × (result.2.shares ≡ 1) }
        { work_in_two(rt, alloc, shared, one, two, 0) },
        move || -> (Half, Seat<Tally, N>, Seat<Tally, N>)
            requires { (three.shares ≡ 1) × (four.shares ≡ 1) }
            ensures { (result.1.shares ≡ 1) × (result.2.shares ≡ 1) }
        { work_in_two(rt, alloc, shared, three, four, 2 * TURNS) },
    );
    desk.join(&mut seat, one);
    desk.join(&mut seat, two);
    desk.join(&mut seat, three);
    desk.join(&mut seat, four);
    let items = desk.close(seat).into_items();
    Worked { items, left, right }
}

// A thread that splits its seat for a second one, and takes the second seat in again.
fn branch<R: Threads + Wait + Sync, N: DeskName + Send + Sync>(
    rt: &R,
    alloc: Global,
    desk: &Desk<Tally, N>,
    mut seat: Seat<Tally, N>,
    first: u32,
) -> (Half, Seat<Tally, N>)
    requires { seat.shares ≡ 2 }
    ensures { result.1.shares ≡ 2 }
{
    let other = desk.split(&mut seat);
    let (told, mut seat, other) = work_in_two(rt, alloc, desk, seat, other, first);
    desk.join(&mut seat, other);
    (told, seat)
}

// Four threads, whose seats are split and joined in a tree.
fn work_in_a_tree<R: Threads + Wait + Sync, N: DeskName + Send + Sync>(
    rt: &R,
    alloc: Global,
    unnamed: UnnamedDesk<Tally>,
) -> Worked
    requires { unnamed.table ≡ N.table }
{
    let (desk, mut seat) = unnamed.named::<N>();
    let mut one = desk.split(&mut seat);
    let more = desk.split(&mut seat);
    desk.join(&mut one, more);
    let mut two = desk.split(&mut seat);
    let more = desk.split(&mut seat);
    desk.join(&mut two, more);
    let shared = &desk;
    let ((left, one), (right, two)) = thread::join(
        rt,
        move || -> (Half, Seat<Tally, N>)
            requires { one.shares ≡ 2 }
            ensures { result.1.shares ≡ 2 }
        { branch(rt, alloc, shared, one, 0) },
        move || -> (Half, Seat<Tally, N>)
            requires { two.shares ≡ 2 }
            ensures { result.1.shares ≡ 2 }
        { branch(rt, alloc, shared, two, 2 * TURNS) },
    );
    desk.join(&mut seat, one);
    desk.join(&mut seat, two);
    let items = desk.close(seat).into_items();
    Worked { items, left, right }
}

// Counts the threads that were told a place. False where the place has another number, or isn't above the thread's last.
fn count_owners(items: &[u32], told: &Told, owners: &mut Vec<u32>) -> bool {
    let mut number = told.first;
    let mut free = 0;
    for &place in &told.places {
        let at = place as usize;
        if place < free || at >= items.len() || at >= owners.len() || items[at] != number {
            return false;
        }
        owners[at] = owners[at].wrapping_add(1);
        free = place.wrapping_add(1);
        number = number.wrapping_add(1);
    }
    true
}

fn count_half(items: &[u32], half: &Half, owners: &mut Vec<u32>) -> bool {
    match half {
        Ok((one, two)) => count_owners(items, one, owners) && count_owners(items, two, owners),
        Err(_) => false,
    }
}

// Whether each of 8000 places was told to exactly one thread, under the number that the thread appended there.
fn own_every_place_once(alloc: Global, worked: &Worked) -> Result<bool, AllocError> {
    let items = worked.items.as_slice();
    let mut owners = vec![in alloc; 0u32; items.len()]?;
    let told = count_half(items, &worked.left, &mut owners)
        && count_half(items, &worked.right, &mut owners);
    let once = owners.iter().all(|&count| count == 1);
    Ok(told && once && items.len() == 8000)
}

#[test]
fn four_threads_own_every_place_once(rt: HostRuntime) -> Result<(), Fail> {
    let alloc = rt.alloc();
    let unnamed = UnnamedDesk::new(alloc, Tally::new(alloc))?;
    let worked = work_in_four::<HostRuntime, Brand>(&rt, alloc, unnamed);
    let once = own_every_place_once(alloc, &worked);
    drop(worked);
    assert!(rt; once?);
    Ok(())
}

#[test]
fn seats_split_and_joined_in_a_tree_own_every_place_once(rt: HostRuntime) -> Result<(), Fail> {
    let alloc = rt.alloc();
    let unnamed = UnnamedDesk::new(alloc, Tally::new(alloc))?;
    let worked = work_in_a_tree::<HostRuntime, Brand>(&rt, alloc, unnamed);
    let once = own_every_place_once(alloc, &worked);
    drop(worked);
    assert!(rt; once?);
    Ok(())
}

// Offers a number. Where it is refused, the seat saw a full list.
fn offer_one<R: Wait, N: DeskName>(
    rt: &R,
    desk: &Desk<Tally, N>,
    seat: &mut Seat<Tally, N>,
    number: u32,
) -> Result<bool, AllocError>
    ensures shares { seat.new.shares ≡ seat.old.shares }
    ensures refused { IfOk result (λ taken. taken ≡ false → Any (λ xs. 4 ≤ length xs) seat.new.seen) }
{
    desk.with(
        rt,
        seat,
        |tally: &mut Tally| -> Result<bool, AllocError>
            ensures refused { IfOk result (λ taken. taken ≡ false → 4 ≤ length tally.new) }
            ensures grows { IsPrefix tally.old tally.new }
        { tally.offer(number) },
    )
}

// Offers numbers until one is refused, and tells whether one was.
fn offer_many<R: Wait, N: DeskName>(
    rt: &R,
    desk: &Desk<Tally, N>,
    mut seat: Seat<Tally, N>,
    first: u32,
) -> (bool, Seat<Tally, N>)
    ensures shares { result.1.shares ≡ seat.shares }
    ensures refused { result.0 ≡ true → Any (λ xs. 4 ≤ length xs) result.1.seen }
{
    for i in 0..8 {
        match offer_one(rt, desk, &mut seat, first.wrapping_add(i)) {
            Ok(true) => {}
            Ok(false) => return (true, seat),
            Err(_) => return (false, seat),
        }
    }
    (false, seat)
}

// Two threads offer numbers. Where the first was refused, the final list has a beginning that was full.
fn offer_in_two<R: Threads + Wait + Sync, N: DeskName + Send + Sync>(
    rt: &R,
    unnamed: UnnamedDesk<Tally>,
) -> (bool, Vec<u32>)
    requires { unnamed.table ≡ N.table }
    ensures { result.0 ≡ true → (xs : List ℕ) × IsPrefix xs result.1.items × (4 ≤ length xs) }
{
    let (desk, mut seat) = unnamed.named::<N>();
    let one = desk.split(&mut seat);
    let two = desk.split(&mut seat);
    let shared = &desk;
    let ((refused, one), (_, two)) = thread::join(
        rt,
        move || -> (bool, Seat<Tally, N>)
            requires { one.shares ≡ 1 }
            ensures shares { result.1.shares ≡ 1 }
            ensures refused { result.0 ≡ true → Any (λ xs. 4 ≤ length xs) result.1.seen }
        { offer_many(rt, shared, one, 0) },
        move || -> (bool, Seat<Tally, N>)
            requires { two.shares ≡ 1 }
            ensures { result.1.shares ≡ 1 }
        { offer_many(rt, shared, two, 8) },
    );
    desk.join(&mut seat, one);
    desk.join(&mut seat, two);
    (refused, desk.close(seat).into_items())
}

#[test]
fn a_refusal_is_of_a_beginning_of_the_final_list(rt: HostRuntime) -> Result<(), Fail> {
    let alloc = rt.alloc();
    let unnamed = UnnamedDesk::new(alloc, Tally::new(alloc))?;
    let (refused, items) = offer_in_two::<HostRuntime, Brand>(&rt, unnamed);
    assert!(rt; refused);
    assert!(rt; items.len() == 4);
    drop(items);
    Ok(())
}
