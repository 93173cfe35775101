// A server's ticks, counted while one dispatcher is kept and lent to each move, which alters it there.
ghost use Rattle.std.specs.Prelude.{◌+◌, ◌≤◌, ◌<◌, cond, ◌≡◌};
ghost use Rattle.clock.specs.Clock.{last_tick};
ghost use Rattle.demand_3.specs.Got.{is_under};
ghost use Rattle.dispatcher.specs.Within.{Within};
ghost use Rattle.moments.specs.Moments.{choice_of};
ghost use Rattle.refusal.specs.Refusals.{on_paper};
ghost use Rattle.server.proofs.MoveLaws.{booking_of};
ghost use Rattle.sizes.specs.Sizes.{clock_end};
ghost use Rattle.test_in_time.specs.Working.Counted.{Counts, Got};
ghost use Rattle.test_in_time.specs.Working.Live.{Live};

use crate::bandwidth;
use crate::bandwidth::Window;
use booking::Booking;
use clock::{Length, Moment};
use dispatcher::{Dispatcher, Turn};
use refusal::Refusal;
use server::Server;

// A count of ticks, and the dispatcher after them.
#[derive(Clone, Copy)]
pub struct Counted {
    pub got: u64,
    pub dispatcher: Dispatcher,
}

// A line for each of some windows that start at the dispatcher's moment.
pub(crate) fn lines(rt: &impl Print, start: Dispatcher)
    requires { Live start }
{
    line(rt, start, 0, Moment { tick: 10 });
    line(rt, start, 0, Moment { tick: 15 });
    line(rt, start, 1, Moment { tick: 11 });
}

// The line of one, where its server has no work waiting then.
fn line(rt: &impl Print, start: Dispatcher, i: usize, to: Moment)
    requires live { Live start }
    requires tick_le_clock_end { to.tick ≤ clock_end }
{
    if i < start.count {
        let s = start.servers[i];
        if s.waiting.ticks == 0 {
            let from = start.clock;
            let w = Window {
                server: i,
                from,
                to,
            };
            bandwidth::line(rt, "live", booking_of(s), w, moves(start, w));
        }
    }
}

// Q and T of a server. (No `From`: both types are another crate's.)
fn booking_of(s: Server) -> Booking
    ensures { result ≡ booking_of s }
{
    Booking {
        budget: s.budget,
        period: s.period,
    }
}

// What the window's server gets by File P's arrivals, (0, 0, 5), (0, 1, 3) and (6, 1, 2), and its 12 ticks.
fn moves(start: Dispatcher, w: Window) -> u64
    requires { Within start }
    ensures { Got w start result }
{
    let first = round(start, w, 0, Length { ticks: 5 }, 0);
    let second = round(first.dispatcher, w, 1, Length { ticks: 3 }, 6);
    let third = round(second.dispatcher, w, 1, Length { ticks: 2 }, 6);
    first.got + second.got + third.got
}

// Work for a server, which may be refused, and so many ticks: how many of them the window's server got. Here the dispatcher is kept.
fn round(start: Dispatcher, w: Window, server: usize, cost: Length, times: u64) -> Counted
    requires { Within start }
    ensures { Counts w start times result }
{
    let mut d = start;
    let _ = live_loop::arrival(&mut d, server, cost);
    let mut got = 0;
    for _ in 0..times {
        got = with(got, w, live_loop::tick(&mut d));
    }
    Counted { got, dispatcher: d }
}

// A count with one tick more, where the window counts that.
#[tactic(auto, unfolding(demand_3::specs::Got::is_under))]
fn with(got: u64, w: Window, answer: Result<Turn, Refusal>) -> u64
    requires { got < last_tick }
    ensures { result ≡ got + cond (is_under w.server w.to (choice_of (on_paper answer))) 1 0 }
{
    match answer {
        Ok(Turn::Idle) => got,
        Ok(
            Turn::Ran {
                server,
                deadline,
                postponed: _,
            },
        ) => got + u64::from(bandwidth::counts(w, server, deadline)),
        Err(_) => got,
    }
}
