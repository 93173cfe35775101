// A server: its booking, what it holds from one moment to the next, and how a moment changes that. The change is defined in `specs/`; the
// code that makes it is that of `steps` and of `dispatcher`.
#![tactic(auto)]

ghost use Rattle.std.specs.Prelude.{◌≡◌};
ghost use Rattle.server.specs.Server.{fresh, vacant};

use booking::Booking;
use clock::{Length, Moment};

#[derive(Clone, Copy, PartialEq, Eq, Default, Debug)]
pub struct Server {
    // Q
    pub budget: Length,
    // T
    pub period: Length,
    // c, what is left of the budget
    pub remaining: Length,
    // d
    pub deadline: Moment,
    // w, the work that waits
    pub waiting: Length,
}

// How a server took the work of an arrival: it was idle and woke, with its budget and deadline kept or renewed, or it was busy.
#[derive(Clone, Copy, PartialEq, Eq, Debug)]
pub enum Waking {
    Kept,
    Renewed,
    Busy,
}

// A booking's server at the start.
pub fn fresh(b: Booking) -> Server
    ensures { result ≡ fresh b }
{
    Server {
        budget: b.budget,
        period: b.period,
        ..Server::default()
    }
}

// What stands at a place behind the servers: every number is 0.
pub fn vacant() -> Server
    ensures { result ≡ vacant }
{
    fresh(Booking::default())
}
