// Whole budgets in one go: a server that has just been postponed and still wins goes on with the next budget. A moment, a server's number and
// the server stay three parameters, since each of the laws in the contracts is of some of them and of others beside. (Numbers of type usize are
// widened by `as`, here and in the whole crate: there is no `From`.)
ghost use Rattle.std.specs.Prelude.{◌≡◌, suc, ◌+◌, ◌*◌, ◌≤◌, ◌<◌};
ghost use Rattle.books.proofs.Book.{segment_book};
ghost use Rattle.books.proofs.Budgets.Budgets.{Able, Budgets, BudgetsFrom, Further, budgets_on, turned_on};
ghost use Rattle.books.proofs.Budgets.BudgetLaws.{RisesBelow};
ghost use Rattle.books.proofs.Budgets.Skipped.{last_of};
ghost use Rattle.books.proofs.Stretches.Turns.{Bounded};
ghost use Rattle.books.proofs.Tree.Winners.{Leaf};
ghost use Rattle.clock.specs.Clock.{last_tick, ticks};
ghost use Rattle.sizes.specs.Sizes.{clock_end};

use crate::serving::less;
use crate::{stretches, tree};
use books::{Current, WinnerTree};
use clock::{Length, Moment};
use server::Server;

// For how many whole budgets server i goes on: none where its budget is not full, else as many as there is time and work to spare,
// and as no other server wins before.
pub(crate) fn further(tree: &WinnerTree, i: usize, s: Server, spare: Length) -> u64
    requires leaf { Leaf tree.now i }
    requires able { Able s }
    ensures { Further tree.now i s spare.ticks result }
{
    let budget = s.budget.ticks;
    let own = s.deadline.tick * 64 + i as u64;
    // The least key of the half of the servers that i is not of. Asked first, as it nearly always ends as it did the time before: where
    // many are at work, that half mostly has an earlier key.
    if tree.keys[tree::other_half(tree, i)] <= own
        || s.remaining.ticks < budget
        || spare.ticks <= budget
    {
        return 0;
    }
    let rival = tree::rival(tree, i);
    if rival <= own {
        return 0;
    }
    rises(own, 64 * s.period.ticks, rival).min(fits_in(budget, spare.ticks))
}

// How many of the numbers that rise from `from` on by `step` are below a bound.
fn rises(from: u64, step: u64, bound: u64) -> u64
    requires le_step { 1 ≤ step }
    requires from_lt_bound { from < bound }
    ensures { RisesBelow from step bound result }
{
    (bound - from - 1) / step + 1
}

// How many budgets together are less than what there is to spare.
fn fits_in(budget: u64, spare: u64) -> u64
    requires le_budget { 1 ≤ budget }
    requires le_spare { 1 ≤ spare }
    ensures { result * budget < spare }
{
    (spare - 1) / budget
}

// The server after n whole budgets.
pub(crate) fn budgets_on(s: Server, n: u64) -> Server
    requires { Budgets s n }
    ensures { result ≡ budgets_on s n }
{
    Server {
        waiting: less(s.waiting, times(n, s.budget)),
        deadline: clock::later(s.deadline, times(n, s.period)),
        ..s
    }
}

// A length so many times: a function of its own, as `less` is, for its premise.
pub(crate) fn times(n: u64, one: Length) -> Length
    requires { n * one.ticks ≤ last_tick }
    ensures { result ≡ ticks (n * one.ticks) }
{
    Length {
        ticks: n * one.ticks,
    }
}

// The stretches of n whole budgets of server i from t on, one after the other. Once the list is full their segments are only counted.
pub(crate) fn pass(list: &mut [u64], c: Current, t: Moment, i: usize, s: Server, n: u64) -> Current
    requires budgets_from { BudgetsFrom t.tick i s n }
    requires bounded { Bounded (clock_end + 1) t.tick (segment_book list.old c) }
    ensures { segment_book list.new result ≡ turned_on (segment_book list.old c) t.tick i s n }
{
    let written = n.min(until_full(list.len() / 4, c.count));
    let current = pass_each(list, c, t, i, s, written);
    if written == n {
        return current;
    }
    let skipped = n - written;
    last_of(t, i, s, n - 1, current.count + skipped as usize)
}

// So many budgets that a list with room for `held` segments is full behind them, when `ended` have ended: each budget but the first ends
// one more.
fn until_full(held: usize, ended: usize) -> u64
    requires { held < last_tick }
    ensures lower_bound { 1 ≤ result }
    ensures held_bound { held < ended + result }
{
    held.saturating_sub(ended) as u64 + 1
}

// The stretch of the budget behind n others, when so many segments have ended.
fn last_of(t: Moment, i: usize, s: Server, n: u64, ended: usize) -> Current
    requires { BudgetsFrom t.tick i s (suc n) }
    ensures { result ≡ last_of t.tick i s n ended }
{
    let last = budgets_on(s, n);
    Current {
        start: clock::later(t, times(n, s.budget)),
        server: i,
        deadline: last.deadline,
        waits: less(last.waiting, s.budget),
        count: ended,
    }
}

// The same, with each stretch gone through.
fn pass_each(list: &mut [u64], c: Current, t: Moment, i: usize, s: Server, n: u64) -> Current
    requires budgets_from { BudgetsFrom t.tick i s n }
    requires bounded { Bounded (clock_end + 1) t.tick (segment_book list.old c) }
    ensures { segment_book list.new result ≡ turned_on (segment_book list.old c) t.tick i s n }
{
    let mut current = c;
    let mut at = t;
    let mut deadline = s.deadline;
    let mut waiting = s.waiting;
    for _ in 0..n {
        current = stretches::turn_to(list, current, at, i, deadline);
        waiting = less(waiting, s.budget);
        current.waits = waiting;
        at = clock::later(at, s.budget);
        deadline = clock::later(deadline, s.period);
    }
    current
}
