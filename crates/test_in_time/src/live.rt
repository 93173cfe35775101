// Plays File P on a live dispatcher, and writes for each tick that a server got how many ticks were left to its deadline when it ended.
ghost use Rattle.std.specs.Prelude.{◌≤◌};
ghost use Rattle.test_in_time.specs.Working.Live.{Live};

use crate::{lent, say};
use clock::{Length, Moment};
use dispatcher::{Dispatcher, Turn};

// File P's table: H 10, servers (2, 5) and (3, 5).
pub(crate) fn file_p(rt: &impl Print) {
    open(rt, &[2, 5, 3, 5], Length { ticks: 10 });
}

// Opens the table, and plays where it is accepted, by value and then lent: of such a table demand 3 speaks.
fn open(rt: &impl Print, table: &[u64], frame: Length) {
    let opened = opening::open_table(table, frame);
    let answer = opened.answer;
    let start = opened.dispatcher;
    if let Ok(()) = answer {
        moves(rt, start);
        lent::lines(rt, start);
    }
}

// File P's arrivals, (0, 0, 5), (0, 1, 3) and (6, 1, 2), and its 12 ticks.
fn moves(rt: &impl Print, start: Dispatcher)
    requires { Live start }
{
    let mut at = arrival(start, 0, 5);
    at = arrival(at, 1, 3);
    at = ticks(rt, at, 6);
    at = arrival(at, 1, 2);
    ticks(rt, at, 6);
}

// Work for a server, which may be refused: the dispatcher is live all the same.
fn arrival(d: Dispatcher, server: usize, cost: u64) -> Dispatcher
    requires { Live d }
    ensures { Live result }
{
    let a = dispatcher::arrival(d, server, Length { ticks: cost });
    a.dispatcher
}

// So many ticks, one after the other.
fn ticks(rt: &impl Print, d: Dispatcher, times: u64) -> Dispatcher
    requires { Live d }
    ensures { Live result }
{
    let mut at = d;
    for _ in 0..times {
        at = tick(rt, at);
    }
    at
}

// One tick, and a line where a server got it. That it then ended no later than its deadline is demand 3.
#[tactic(auto, using(crate::proofs::LiveLaws::live_ticked))]
fn tick(rt: &impl Print, d: Dispatcher) -> Dispatcher
    requires { Live d }
    ensures { Live result }
{
    let t = dispatcher::tick(d);
    let answer = t.answer;
    let after = t.dispatcher;
    if let Ok(
        Turn::Ran {
            server,
            deadline,
            postponed,
        },
    ) = answer
    {
        say::tick(rt, server, deadline, left(after.clock, deadline));
    }
    after
}

// What lies between the end of a tick and its deadline, which its caller knows to be no earlier.
fn left(end: Moment, deadline: Moment) -> Length
    requires { end.tick ≤ deadline.tick }
{
    Length {
        ticks: deadline.tick - end.tick,
    }
}
