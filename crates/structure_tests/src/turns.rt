//! A list of amounts under a lock.
ghost use Rattle.std.specs.Prelude.{◌≡◌, ℕ, ◌<◌, ◌≤◌, List, [], ◌∷◌, length, map, All, IfOk, vec_len};
ghost use Rattle.turn_lock.specs.Passes.{pass_count, IsPassOf, AreAllPasses};

use mine_model::NoMemory;
use std::alloc::Global;
use std::marker::Model;
use std::sync::Wait;
use std::thread;
use std::thread::Threads;
use std::time::{Clock, Duration};
use test_facts::first_false;
use turn_lock::{Change, Kept, Pass, TurnLock};

/// The amounts so far, each with the pass that added it.
#[derive(Drop)]
struct Amounts {
    added: Vec<(u32, u64)>,
}

impl Model for Amounts {
    ghost Value = { List (ℕ × ℕ) };

    ghost view = { λ a. a.added.items };
}

impl Kept for Amounts {
    type Ground = ();

    ghost history_of = { map (λ c. (c.0, c.1 ∷ [])) };

    ghost ground_of = { λ _. tt };
}

#[derive(Drop)]
struct Add(u64);

impl Change<Amounts> for Add {
    ghost entry = { λ c. c.0 ∷ [] };

    ghost suits = { λ _ _. Unit {0} };

    ghost refused = { λ before after. after ≡ before };

    fn apply(&mut self, number: u32, value: &mut Amounts) -> Result<(), NoMemory> {
        value.added.push((number, self.0))?;
        Ok(())
    }
}

/// A change that always wants memory.
#[derive(Drop)]
struct Refuse;

impl Change<Amounts> for Refuse {
    ghost entry = { λ _. [] };

    ghost suits = { λ _ _. Unit {0} };

    ghost refused = { λ before after. after ≡ before };

    fn apply(&mut self, _number: u32, _value: &mut Amounts) -> Result<(), NoMemory> {
        Err(NoMemory)
    }
}

fn change_at<C: Change<Amounts>>(
    rt: &impl Wait,
    lock: &TurnLock<Amounts>,
    passes: &mut [Pass<Amounts>],
    at: usize,
    change: &mut C,
) -> Result<(), NoMemory>
    requires at { at < length passes.old }
    requires all { AreAllPasses lock.now passes.old }
    requires suits { C.suits change.old tt }
    ensures all { AreAllPasses lock.now passes.new }
{
    let pass = &mut passes[at];
    lock.change(rt, pass, change)
}

/// Makes four changes by two passes, of which the third is refused, and tells whether it was.
fn change_all(
    rt: &impl Wait,
    lock: &TurnLock<Amounts>,
    passes: &mut [Pass<Amounts>],
) -> Result<bool, NoMemory>
    requires all { AreAllPasses lock.now passes.old }
    requires two { pass_count lock.now ≡ 2 }
    ensures all { AreAllPasses lock.now passes.new }
{
    change_at(rt, lock, passes, 0, &mut Add(5))?;
    change_at(rt, lock, passes, 1, &mut Add(7))?;
    let is_refused = change_at(rt, lock, passes, 1, &mut Refuse).is_err();
    change_at(rt, lock, passes, 0, &mut Add(9))?;
    Ok(is_refused)
}

fn no_amounts(alloc: Global) -> Amounts
    ensures { result ≡ [] }
{
    Amounts {
        added: Vec::new(alloc),
    }
}

/// The third change is refused, and the others stand in their order. The number of the first wrong fact.
fn wrong_fact(rt: &impl Wait, alloc: Global) -> Result<Option<usize>, NoMemory> {
    let (lock, mut passes) = TurnLock::new(alloc, no_amounts(alloc), 2)?;
    let is_refused = change_all(rt, &lock, passes.as_mut_slice());
    let amounts = lock.close(passes);
    let are_in_order = amounts.added.as_slice() == [(0, 5), (1, 7), (0, 9)].as_slice();
    Ok(first_false(&[is_refused?, are_in_order]))
}

#[test]
fn changes_stand_in_their_order(rt: HostRuntime) {
    assert_eq!(rt; wrong_fact(&rt, rt.alloc()), Ok(None));
}

/// A change that rests before it adds its amount.
#[derive(Drop)]
struct AddAfter<'a, C: Clock> {
    clock: &'a C,
    rest: Duration,
    amount: u64,
}

impl<'a, C: Clock> Change<Amounts> for AddAfter<'a, C> {
    ghost entry = { λ c. c.amount ∷ [] };

    ghost suits = { λ _ _. Unit {0} };

    ghost refused = { λ before after. after ≡ before };

    fn apply(&mut self, number: u32, value: &mut Amounts) -> Result<(), NoMemory> {
        thread::sleep(self.clock, self.rest);
        value.added.push((number, self.amount))?;
        Ok(())
    }
}

// Adds the numbers below `count`, in order, each after a rest.
fn count_up<R: Wait + Clock>(
    rt: &R,
    lock: &TurnLock<Amounts>,
    mut pass: Pass<Amounts>,
    count: u64,
    rest: Duration,
) -> Result<Pass<Amounts>, NoMemory>
    requires { IsPassOf lock.now pass }
    ensures { IfOk result (λ p. IsPassOf lock.now p) }
{
    for amount in 0..count {
        let mut change = AddAfter {
            clock: rt,
            rest,
            amount,
        };
        lock.change(rt, &mut pass, &mut change)?;
    }
    Ok(pass)
}

// Counts up with each pass, in a thread of its own.
fn count_in_threads<R: Threads + Wait + Clock + Sync>(
    rt: &R,
    alloc: Global,
    lock: &TurnLock<Amounts>,
    passes: Vec<Pass<Amounts>>,
    count: u64,
    rest: Duration,
) -> Result<Vec<Pass<Amounts>>, NoMemory>
    requires { AreAllPasses lock.now passes.items }
    ensures { IfOk result (λ v. AreAllPasses lock.now v.items) }
{
    let results = thread::map_vec(
        rt,
        passes,
        &|pass: Pass<Amounts>| -> Result<Pass<Amounts>, NoMemory>
            requires { IsPassOf lock.now pass }
            ensures { IfOk result (λ p. IsPassOf lock.entry.now p) }
        { count_up(rt, lock, pass, count, rest) },
    )?;
    taken_back(alloc, lock, results)
}

// The passes, unless a change wanted memory.
fn taken_back(
    alloc: Global,
    _lock: &TurnLock<Amounts>,
    mut results: Vec<Result<Pass<Amounts>, NoMemory>>,
) -> Result<Vec<Pass<Amounts>>, NoMemory>
    requires { All (λ r. IfOk r (λ p. IsPassOf _lock.now p)) results.items }
    ensures each { IfOk result (λ v. All (IsPassOf _lock.now) v.items) }
    ensures all { IfOk result (λ v. vec_len v ≡ vec_len results) }
{
    let mut passes = Vec::new(alloc);
    while let Some(result) = results.pop() {
        passes.push(result?)?;
    }
    Ok(passes)
}

// Whether the amounts of the pass are the numbers below `count`, in order.
fn counts_up(amounts: &[(u32, u64)], number: u32, count: u64) -> bool {
    let mut next = 0;
    for (by, amount) in amounts {
        if *by == number {
            if *amount != next || next >= count {
                return false;
            }
            next += 1;
        }
    }
    next == count
}

/// The first of so many passes that did not add the numbers below `count`, in order; their number where more
/// was added.
fn first_other(amounts: &[(u32, u64)], passes: u32, count: u64) -> Option<usize> {
    for number in 0..passes {
        if !counts_up(amounts, number, count) {
            return Some(number as usize);
        }
    }
    let are_all = amounts.len() as u64 == u64::from(passes).saturating_mul(count);
    (!are_all).then_some(passes as usize)
}

/// The same of threads that count up, each in its order.
fn first_other_thread<R: Threads + Wait + Clock + Sync>(
    rt: &R,
    alloc: Global,
    passes: u32,
    count: u64,
    rest: Duration,
) -> Result<Option<usize>, NoMemory>
    requires { 1 ≤ passes }
{
    let (lock, all) = TurnLock::new(alloc, no_amounts(alloc), passes)?;
    let all = count_in_threads(rt, alloc, &lock, all, count, rest)?;
    let amounts = lock.close(all);
    Ok(first_other(amounts.added.as_slice(), passes, count))
}

#[test]
fn threads_add_each_in_its_order(rt: HostRuntime) {
    let other = first_other_thread(&rt, rt.alloc(), 8, 1000, Duration::ZERO);
    assert_eq!(rt; other, Ok(None));
}

// While one change takes two seconds, two more wait: they look again, and sleep no longer than it takes.
#[test]
fn waiters_look_again_after_long_turns(rt: HostRuntime) {
    let other = first_other_thread(&rt, rt.alloc(), 3, 1, Duration::from_secs(2));
    assert_eq!(rt; other, Ok(None));
}
