// Opening a live table: a lent list of Q, T pairs and the frame H become a dispatcher, or are refused by number and place.
#![tactic(auto)]

ghost use Rattle.std.specs.Prelude.{◌≡◌, ◌<◌, MatchResult, get_or};
ghost use Rattle.booking.specs.Sheet.{sheet_of};
ghost use Rattle.dispatcher.specs.Moves.{reply_says};
ghost use Rattle.dispatcher.specs.Within.{Within};
ghost use Rattle.refusal.specs.Refusals.{accepted, refused, number_of, place_of};
ghost use Rattle.sizes.specs.Sizes.{most_servers};
ghost use Rattle.opening.specs.Opening.{listed, out_of_range, table_judged, opening, no_servers};

use booking::{Booking, Sheet};
use clock::{Length, Moment};
use dispatcher::{Dispatcher, Reply};
use refusal::Refusal;
use std::array;

// The dispatcher of a table, at its start, or a refusal and a dispatcher with no servers.
pub fn open_table(table: &[u64], frame: Length) -> Reply<()>
    ensures result_value { reply_says result ≡ opening table.now frame }
    ensures within { Within result.dispatcher }
{
    match judge(table, frame) {
        Ok(sheet) => Reply {
            answer: Ok(()),
            dispatcher: dispatcher::at_start(sheet),
        },
        Err(why) => Reply {
            answer: Err(why),
            dispatcher: no_servers(),
        },
    }
}

// The booking sheet of a table that is accepted. 2, then 4 at the first faulty server, then 5.
fn judge(table: &[u64], frame: Length) -> Result<Sheet, Refusal>
    ensures { MatchResult result (λ s. (table_judged table.now frame ≡ accepted) × (s ≡ sheet_of frame (listed table.now))) (λ r. table_judged table.now frame ≡ refused (number_of r) (place_of r)) }
{
    if is_out_of_range(table.len(), frame) {
        return Err(Refusal::Sizes);
    }
    let sheet = sheet_of(table, frame);
    booking::admit(sheet)?;
    Ok(sheet)
}

// Whether the frame, the count of numbers or the count of servers is out of range.
fn is_out_of_range(numbers: usize, frame: Length) -> bool
    ensures { result ≡ out_of_range numbers frame }
{
    frame.ticks < 1
        || sizes::MOST_FRAME < frame.ticks
        || sizes::MOST_SERVERS < numbers / 2
        || numbers % 2 != 0
}

// The booking sheet of a table.
fn sheet_of(table: &[u64], frame: Length) -> Sheet
    ensures { result ≡ sheet_of frame (listed table.now) }
{
    Sheet {
        frame,
        count: table.len() / 2,
        bookings: array::from_fn(|k| booking_at(table, k)),
    }
}

// The k-th pair. Behind the end of the list all counts 0.
fn booking_at(table: &[u64], k: usize) -> Booking
    requires { k < most_servers }
    ensures { result ≡ (listed table.now).booking k }
{
    Booking {
        budget: Length {
            ticks: table.get(2 * k).copied().unwrap_or(0),
        },
        period: Length {
            ticks: table.get(2 * k + 1).copied().unwrap_or(0),
        },
    }
}

// What a refused opening hands back.
fn no_servers() -> Dispatcher
    ensures { result ≡ no_servers }
{
    Dispatcher {
        frame: Length { ticks: 1 },
        count: 0,
        clock: Moment { tick: 0 },
        servers: [server::vacant(); sizes::MOST_SERVERS],
    }
}
