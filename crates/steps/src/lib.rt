// The code of steps 1 to 3 of a moment, at one server: it takes the work of an arrival, it is passed over or not, and it is served for a
// tick. All are proved for all numbers: where 64 bits might not hold what a step works out, where the work would pass 4,294,967,295, and
// where there is no work or no budget to serve, the server stays as it is. A dispatcher takes no such step.
#![tactic(auto)]

mod arriving;
mod fitting;

ghost use Rattle.std.specs.Prelude.{◌≡◌};
ghost use Rattle.server.specs.Server.{holding, passed_over};
ghost use Rattle.steps.specs.Steps.{after_arrival, after_tick};

use clock::{Length, Moment};
use server::Server;

// Step 1: the server with the work of an arrival, and woken where it was idle.
#[tactic(auto, using(crate::proofs::StepLaws::not_beyond), unfolding(crate::specs::Steps::after_arrival))]
pub fn take(s: Server, now: Moment, cost: Length) -> Server
    ensures { result ≡ after_arrival s now cost }
{
    if fitting::is_beyond(s, now) || fitting::is_too_much(s.waiting, cost) {
        return s;
    }
    arriving::arrive(s, now, cost)
}

// Whether step 2 passes the server over.
pub fn is_passed_over(s: Server) -> bool
    ensures { result ≡ passed_over s }
{
    s.waiting.ticks == 0
}

// Step 3: the server with one tick less to spend and to do, and postponed where that was the last of its budget.
#[tactic(auto, using(crate::proofs::StepLaws::services), unfolding(crate::specs::Steps::after_tick))]
pub fn serve(s: Server) -> Server
    ensures { result ≡ after_tick s }
{
    if fitting::is_unserved(s) {
        return s;
    }
    let less = Server {
        remaining: Length {
            ticks: s.remaining.ticks - 1,
        },
        waiting: Length {
            ticks: s.waiting.ticks - 1,
        },
        ..s
    };
    if less.remaining.ticks == 0 {
        refill(less, clock::later(s.deadline, s.period))
    } else {
        less
    }
}

// What a server that is renewed and one that is postponed have in common: a full budget up to another deadline.
fn refill(s: Server, deadline: Moment) -> Server
    ensures { result ≡ holding s s.budget deadline s.waiting }
{
    Server {
        remaining: s.budget,
        deadline,
        ..s
    }
}
