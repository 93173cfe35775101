// What is left of a server's bandwidth. Whoever asks knows by demand 3 that what the server got is within it. That, and what else demand 3
// says, is the premise of each function that relies on it, and of no type: the program is there to show where it is met.
ghost use Rattle.std.specs.Prelude.{◌*◌, ◌≡◌};
ghost use Rattle.clock.specs.Clock.{until};
ghost use Rattle.demand_3.specs.Got.{is_under};
ghost use Rattle.history.specs.Choice.{given};
ghost use Rattle.test_in_time.specs.Working.Bandwidth.{Allowed};

use crate::say;
use booking::Booking;
use clock::Moment;

// What is counted of a server: its ticks from a moment on, under deadlines no later than another.
#[derive(Clone, Copy)]
pub struct Window {
    pub server: usize,
    // a
    pub from: Moment,
    // b
    pub to: Moment,
}

// Whether a tick of a server under a deadline counts.
#[tactic(auto, unfolding(demand_3::specs::Got::is_under))]
pub(crate) fn counts(w: Window, server: usize, deadline: Moment) -> bool
    ensures { result ≡ is_under w.server w.to (given server deadline) }
{
    w.server == server && deadline <= w.to
}

// The line of a window in which a booking's server got so many ticks.
pub(crate) fn line(rt: &impl Print, form: &str, k: Booking, w: Window, got: u64)
    requires { Allowed k w got }
{
    say::bandwidth(rt, form, w, got, whole(k, w, got), left(k, w, got));
}

// All that the booking gives, (b − a) × Q.
fn whole(k: Booking, w: Window, got: u64) -> u64
    requires { Allowed k w got }
    ensures { result ≡ (until w.from w.to).ticks * k.budget.ticks }
{
    let span = clock::until(w.from, w.to);
    span.ticks * k.budget.ticks
}

// What the ticks, times T, leave of it.
fn left(k: Booking, w: Window, got: u64) -> u64
    requires { Allowed k w got }
{
    whole(k, w, got) - got * k.period.ticks
}
