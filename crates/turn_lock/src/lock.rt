//! The lock and its passes.
ghost use Rattle.std.specs.Prelude.{◌≡◌, ◌≢◌, ℕ, ◌+◌, ◌%◌, ◌^◌, ◌<◌, ◌≤◌, [], ◌∷◌, ◌++◌, List, length, map};
ghost use Rattle.std.specs.Prelude.{sum_by, All, EachIndex, IfOk, IfErr, IfSome, Any, None, OnOk, OnErr};
ghost use Rattle.std.specs.Prelude.{MatchResult, Some, slice_get};
ghost use Rattle.turn_lock.specs.History.{entries_of};
ghost use Rattle.turn_lock.specs.Rests.{Rests};

use crate::hand::{Cut, Draw, Enter, Gather, Hand, InTurns, Look, Opening, PassOn};
use crate::kept::{Change, Kept};
use atomic_table::{Seat, Table};
use mine_model::NoMemory;
use std::alloc::Global;
use std::hint::spin_loop;
use std::snapshot::Snapshot;
use std::sync::Wait;
use std::thread::yield_now;
use std::time::Duration;

// The words of the table.
const TICKETS: usize = 0;

const SERVING: usize = 1;

// The slot in which the value lies.
const VALUE: usize = 0;

// Between two looks a waiter spins in so many rounds, and then yields up to this round.
const SPINS: u32 = 10;

const YIELDS: u32 = 64;

// How long it sleeps in the round after that, where the same ticket is still served. Each later sleep is
// twice as long, up to so many doublings.
const FIRST_SLEEP_MICROS: u64 = 50;

const DOUBLINGS: u32 = 4;

// How often a call gives way to others before it draws its ticket.
const PATIENCE: u32 = 2048;

/// The right to change the value under a lock, for one thread at a time. It has a number of its own.
#[derive(Drop)]
pub struct Pass<T> {
    number: u32,
    seat: Seat<T, Hand<T>>,
    ghost rests: { Rests seat.me number },
}

/// A lock whose value remembers which pass made which change.
#[derive(Drop)]
pub struct TurnLock<T: Kept + Drop> {
    table: Table<T, Hand<T>, Opening<T>, InTurns, Global>,
    ghost sized: { (table.shared.table_id.words ≡ 2) × (table.shared.table_id.slots ≡ 1) },
}

impl<T: Kept + Drop> TurnLock<T> {
    ghost use Rattle.turn_lock.specs.Passes.{IsPassOf, AreAllPasses, AreFresh, number, made, opened_with};
    ghost use Rattle.turn_lock.specs.Passes.{pass_count, parts_of};
    ghost use Rattle.turn_lock.specs.Turns.{hand, first_hand, blank};
    ghost use Rattle.turn_lock.specs.Plays.{at_stage, ticket_of, TookValue, HasTurn, Extends, changes};
    ghost use Rattle.turn_lock.specs.Plays.{put_back};
    ghost use Rattle.turn_lock.specs.declared.hand.Stage.TheVariants.{Idle, Waiting, Turn};

    /// A lock over `value`, and its passes, of which the pass k has number k.
    pub fn new(
        alloc: Global,
        value: T,
        passes: u32,
    ) -> Result<(TurnLock<T>, Vec<Pass<T>>), NoMemory>
        requires no_history { T.history_of value ≡ [] }
        requires some_pass { 1 ≤ passes }
        ensures lock { IfOk result (λ r. (opened_with r.0 ≡ value) × (pass_count r.0 ≡ passes)) }
        ensures all { IfOk result (λ r. AreAllPasses r.0 r.1.items) }
        ensures fresh { IfOk result (λ r. AreFresh r.1.items) }
    {
        let opening = Opening {
            value: Snapshot::of(&value),
            passes,
        };
        let mut slots = Vec::with_capacity(alloc, 1)?;
        slots.push(value)?;
        let Ok((table, first)) = Table::new(alloc, &[0, 0], slots, &opening) else {
            return Err(NoMemory);
        };
        let lock = TurnLock { table };
        let all = lock.deal(alloc, first, passes)?;
        Ok((lock, all))
    }

    // Makes a pass of each number.
    fn deal(
        &self,
        alloc: Global,
        mut first: Seat<T, Hand<T>>,
        count: u32,
    ) -> Result<Vec<Pass<T>>, NoMemory>
        requires seat { first.table_id ≡ self.now.table.shared.table_id }
        requires hand { first.me ≡ (first_hand (opened_with self.now) count, []) }
        requires count { count ≡ pass_count self.now }
        ensures all { IfOk result (λ v. AreAllPasses self.now v.items) }
        ensures fresh { IfOk result (λ v. AreFresh v.items) }
    {
        let mut passes = Vec::with_capacity(alloc, count as usize)?;
        for number in 0..count {
            let seat = self.table.shared.split_seat::<Cut>(&mut first);
            passes.push(Pass { number, seat })?;
        }
        Ok(passes)
    }

    /// Waits for its turn, and makes the change as this pass.
    pub fn change<C: Change<T>>(
        &self,
        rt: &impl Wait,
        pass: &mut Pass<T>,
        change: &mut C,
    ) -> Result<(), NoMemory>
        requires pass { IsPassOf self.now pass.old }
        requires suits { C.suits change.old (T.ground_of (opened_with self.now)) }
        ensures pass { IsPassOf self.now pass.new × (number pass.new ≡ number pass.old) }
        ensures made { OnOk result (made pass.new ≡ made pass.old ++ C.entry change.old ∷ []) }
        ensures same { OnErr result (made pass.new ≡ made pass.old) }
        ensures refused { OnErr result (C.refused change.old change.new) }
    {
        self.give_way(rt);
        let ticket = self.draw(&mut pass.seat);
        self.wait(rt, &mut pass.seat, ticket);
        let outcome = self.apply(&mut pass.seat, pass.number, change);
        self.pass_on(&mut pass.seat);
        outcome
    }

    // Waits a while for a moment with no call in flight. A thread that has a ticket and does not run
    // holds up all who draw one after it, so it is best that few do. What is seen here may be out of
    // date at once, and nothing rests on it.
    fn give_way(&self, rt: &impl Wait) {
        for round in 0..PATIENCE {
            let serving = self.table.shared.peek(SERVING);
            if self.table.shared.peek(TICKETS) == serving {
                return;
            }
            self.pause(rt, round, serving);
        }
    }

    fn draw(&self, seat: &mut Seat<T, Hand<T>>) -> u64
        requires seat { seat.old.table_id ≡ self.now.table.shared.table_id }
        requires idle { (seat.old.me.0.stage ≡ Idle) × (length seat.old.me.0.parts ≡ 1) }
        ensures seat { seat.new.table_id ≡ seat.old.table_id }
        ensures drew { (t : ℕ) × (result ≡ t % 2 ^ 64)
            × (seat.new.me ≡ (at_stage seat.old.me.0 (Waiting t), seat.old.me.1)) }
    {
        self.table.shared.fetch_add::<Draw>(seat, TICKETS, 1)
    }

    // Waits until the ticket is served, and takes the value out.
    fn wait(&self, rt: &impl Wait, seat: &mut Seat<T, Hand<T>>, ticket: u64)
        requires seat { seat.old.table_id ≡ self.now.table.shared.table_id }
        requires waits { (seat.old.me.0.stage ≡ Waiting (ticket_of seat.old.me.0.stage))
            × (seat.old.me.1 ≡ []) }
        requires drawn { ticket ≡ ticket_of seat.old.me.0.stage % 2 ^ 64 }
        ensures seat { seat.new.table_id ≡ seat.old.table_id }
        ensures took { TookValue T.history_of T.ground_of seat.old.me seat.new.me }
    {
        let mut round = 0;
        for _ in rt.forever() {
            let serving = self.table.shared.load::<Look>(seat, SERVING);
            if serving == ticket {
                return;
            }
            self.pause(rt, round, serving);
            round = round.saturating_add(1);
        }
        unreachable!()
    }

    // Makes the change to the value that is out with the seat.
    fn apply<C: Change<T>>(
        &self,
        seat: &mut Seat<T, Hand<T>>,
        number: u32,
        change: &mut C,
    ) -> Result<(), NoMemory>
        requires seat { seat.old.table_id ≡ self.now.table.shared.table_id }
        requires out { (y : T) × (seat.old.me.1 ≡ (0, y) ∷ []) × C.suits change.old (T.ground_of y) }
        ensures seat { (seat.new.table_id ≡ seat.old.table_id) × (seat.new.me.0 ≡ seat.old.me.0) }
        ensures value { Extends T.history_of T.ground_of seat.old.me.1 seat.new.me.1
            (changes result (number, C.entry change.old)) }
        ensures refused { OnErr result (C.refused change.old change.new) }
    {
        let value = seat.slot_mut(&self.table.shared, VALUE);
        change.apply(number, value)
    }

    // Puts the value back, and serves the next ticket.
    fn pass_on(&self, seat: &mut Seat<T, Hand<T>>)
        requires seat { seat.old.table_id ≡ self.now.table.shared.table_id }
        requires turn { HasTurn T.history_of T.ground_of seat.old.me }
        ensures seat { seat.new.table_id ≡ seat.old.table_id }
        ensures back { seat.new.me ≡ put_back T.history_of seat.old.me }
    {
        self.table.shared.fetch_add::<PassOn>(seat, SERVING, 1);
    }

    /// The value, once no call can be in flight.
    pub fn close(self, passes: Vec<Pass<T>>) -> T
        requires { AreAllPasses self passes.items }
        ensures made { All (λ p. entries_of (number p) (T.history_of result) ≡ made p) passes.items }
        ensures others { All (λ c. Any (λ p. number p ≡ c.0) passes.items) (T.history_of result) }
        // So the history has as many of each entry as the passes made.
        ensures counts { (f : List ℕ → ℕ)
            → sum_by (λ c. f c.1) (T.history_of result) ≡ sum_by (λ p. sum_by f (made p)) passes.items }
        ensures stays { T.ground_of result ≡ T.ground_of (opened_with self) }
    {
        let all = self.gather(passes);
        let TurnLock { table } = self;
        let mut closed = table.close_with(all);
        let value = closed.take(VALUE);
        closed.free();
        value
    }

    // One seat that stands for all the passes.
    fn gather(&self, mut passes: Vec<Pass<T>>) -> Seat<T, Hand<T>>
        requires { All (IsPassOf self.now) passes.items }
        ensures seat { result.table_id ≡ self.now.table.shared.table_id }
        ensures parts { result.me ≡ (hand None (parts_of passes.items) Idle, []) }
    {
        let mut all = self.enter();
        while let Some(pass) = passes.pop() {
            let Pass { number: _, seat } = pass;
            self.table.shared.join_seat::<Gather>(&mut all, seat);
        }
        all
    }

    fn enter(&self) -> Seat<T, Hand<T>>
        ensures seat { result.table_id ≡ self.now.table.shared.table_id }
        ensures blank { result.me ≡ (blank, []) }
    {
        self.table.shared.load_new_seat::<Enter>(SERVING).1
    }

    // Spins at first, twice as long each time, later lets other threads run, and at last sleeps while the
    // same ticket is served, a little while at first and longer each time.
    fn pause(&self, rt: &impl Wait, round: u32, serving: u64) {
        if round < SPINS {
            spin(1 << round);
        } else if round < YIELDS {
            yield_now();
        } else {
            let low = (serving & 0xffff_ffff) as u32;
            let doublings = (round - YIELDS).min(DOUBLINGS);
            let sleep = Duration::from_micros(FIRST_SLEEP_MICROS << doublings);
            self.table.shared.park_timeout(rt, SERVING, low, sleep);
        }
    }
}

fn spin(times: u32) {
    for _ in 0..times {
        spin_loop();
    }
}
