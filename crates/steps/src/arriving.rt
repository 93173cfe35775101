// A server takes the work of an arrival, once it is known that every number of that fits.
ghost use Rattle.std.specs.Prelude.{◌≡◌, ◌+◌, ◌≤◌};
ghost use Rattle.server.specs.Moves.{renews, arrived};
ghost use Rattle.sizes.specs.Sizes.{most_waiting};
ghost use Rattle.steps.specs.Working.Fits.{Fits};

use crate::refill;
use clock::{Length, Moment};
use server::Server;

// The server with the work, and renewed where it was idle and its budget and deadline are not kept.
#[tactic(auto, using(crate::proofs::StepLaws::arrivals))]
pub(crate) fn arrive(s: Server, now: Moment, cost: Length) -> Server
    requires fits { Fits s now }
    requires ticks_bound { s.waiting.ticks + cost.ticks ≤ most_waiting }
    ensures { result ≡ arrived s now cost }
{
    let kept = Server {
        waiting: Length {
            ticks: s.waiting.ticks + cost.ticks,
        },
        ..s
    };
    if s.waiting.ticks == 0 && is_renewed(s, now) {
        refill(kept, clock::later(now, s.period))
    } else {
        kept
    }
}

// Whether a server that wakes now renews.
#[tactic(auto, using(crate::proofs::StepLaws::renewals))]
fn is_renewed(s: Server, now: Moment) -> bool
    requires { Fits s now }
    ensures { result ≡ renews s now }
{
    let ahead = clock::until(now, s.deadline);
    s.deadline <= now || ahead.ticks * s.budget.ticks <= s.remaining.ticks * s.period.ticks
}
