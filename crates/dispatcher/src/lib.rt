// The dispatcher: the servers of one node and its clock, and the two moves that change them, an arrival and a tick.
// A move takes the dispatcher by value and hands it back. Its one premise, `Within`, is ranges of the dispatcher's numbers: every
// opening hands out a dispatcher within them and every move keeps it there, so that a caller has nothing to check. It is a premise, as document
// 01 has it, and no invariant of the type.
#![tactic(auto)]

mod picking;

ghost use Rattle.std.specs.Prelude.{◌≡◌, ◌<◌};
ghost use Rattle.booking.specs.Sheet.{table_on};
ghost use Rattle.sizes.specs.Sizes.{clock_end};
ghost use Rattle.dispatcher.specs.Moves.{leaving, one_later, reply_says, arrival, tick, ran};
ghost use Rattle.dispatcher.specs.Pick.{Earliest};
ghost use Rattle.dispatcher.specs.Start.{at_start, start_at};
ghost use Rattle.dispatcher.specs.Within.{Within};
ghost use Rattle.refusal.specs.Refusals.{gave};

use booking::Sheet;
use clock::{Length, Moment};
use refusal::Refusal;
use server::Server;
use std::array;

#[derive(Clone, Copy)]
pub struct Dispatcher {
    // H
    pub frame: Length,
    // n, how many of the places hold a server: the memory is fixed
    pub count: usize,
    pub clock: Moment,
    pub servers: [Server; sizes::MOST_SERVERS],
}

// What is answered, and the dispatcher with it: a move leaves one, refused ones too, and an opening hands one back.
#[derive(Clone, Copy)]
pub struct Reply<A> {
    pub answer: Result<A, Refusal>,
    pub dispatcher: Dispatcher,
}

// What a tick went to.
#[derive(Clone, Copy, PartialEq, Eq, Debug)]
pub enum Turn {
    Idle,
    // The server that ran, the deadline that it ran under, and whether that tick postponed it.
    Ran {
        server: usize,
        deadline: Moment,
        postponed: bool,
    },
}

// The dispatcher of a booking sheet at its start, with a server for each booking of the table. Where the table is admitted it is within the
// ranges of the moves (`admitted_within` of proofs/StartLaws.antt).
pub fn at_start(sheet: Sheet) -> Dispatcher
    ensures { result ≡ at_start sheet.frame (table_on sheet) }
{
    Dispatcher {
        frame: sheet.frame,
        count: sheet.count,
        clock: Moment { tick: 0 },
        servers: array::from_fn(|k| server_at_start(&sheet, k)),
    }
}

// The server at place k then; behind those of the table a vacant one.
fn server_at_start(sheet: &Sheet, k: usize) -> Server
    ensures { result ≡ start_at (table_on sheet.now) k }
{
    if k < sheet.count {
        server::fresh(sheet.bookings.get(k).copied().unwrap_or_default())
    } else {
        server::vacant()
    }
}

// Work for one server at this moment of the clock: refused by 6 or 11, or else accepted.
pub fn arrival(mut d: Dispatcher, server: usize, cost: Length) -> Reply<()>
    requires { Within d }
    ensures result_value { reply_says result ≡ arrival d server cost }
    ensures within { Within result.dispatcher }
{
    if arrival::is_faulty(d.count, server, cost) {
        return Reply {
            answer: Err(Refusal::FaultyArrival(0)),
            dispatcher: d,
        };
    }
    let s = d.servers[server];
    if sizes::MOST_WAITING - s.waiting.ticks < cost.ticks {
        return Reply {
            answer: Err(Refusal::WaitingWork),
            dispatcher: d,
        };
    }
    d.servers[server] = steps::take(s, d.clock, cost);
    Reply {
        answer: Ok(()),
        dispatcher: d,
    }
}

// One tick of the clock: refused by 10, or else idle, or given to the server with the earliest deadline.
pub fn tick(d: Dispatcher) -> Reply<Turn>
    requires { Within d }
    ensures result_value { reply_says result ≡ tick d }
    ensures within { Within result.dispatcher }
{
    if d.clock.tick == sizes::CLOCK_END {
        return Reply {
            answer: Err(Refusal::ClockEnd),
            dispatcher: d,
        };
    }
    match picking::pick(d) {
        Some(i) => run(d, i),
        None => pass(d, Turn::Idle),
    }
}

// The tick as server i's.
fn run(mut d: Dispatcher, i: usize) -> Reply<Turn>
    requires within { Within d × Earliest d d.count i }
    requires tick_lt_clock_end { d.clock.tick < clock_end }
    ensures { reply_says result ≡ ran d i }
{
    let s = d.servers[i];
    let turn = Turn::Ran {
        server: i,
        deadline: s.deadline,
        postponed: s.remaining.ticks == 1,
    };
    d.servers[i] = steps::serve(s);
    pass(d, turn)
}

// Step 4 of a moment: its clock goes on, and the tick is answered.
fn pass(mut d: Dispatcher, turn: Turn) -> Reply<Turn>
    requires { d.clock.tick < clock_end }
    ensures { reply_says result ≡ leaving (gave turn) (one_later d) }
{
    d.clock = clock::later(d.clock, Length { ticks: 1 });
    Reply {
        answer: Ok(turn),
        dispatcher: d,
    }
}
