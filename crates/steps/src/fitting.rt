// Tests behind which every number of a step fits 64 bits, and what it needs is there.
ghost use Rattle.std.specs.Prelude.{ltb, ◌≡◌, ◌+◌};
ghost use Rattle.sizes.specs.Sizes.{most_waiting};
ghost use Rattle.steps.specs.Steps.{beyond, unserved};

use clock::{Length, Moment};
use server::Server;

// Whether a number of the server, or the moment, is beyond those of every dispatcher.
#[tactic(auto, unfolding(crate::specs::Steps::beyond))]
pub(crate) fn is_beyond(s: Server, now: Moment) -> bool
    ensures { result ≡ beyond s now }
{
    sizes::CLOCK_END < now.tick
        || sizes::MOST_FRAME < s.period.ticks
        || s.period < s.budget
        || s.budget < s.remaining
        || LAST_DEADLINE < s.deadline.tick
}

// No server of a dispatcher has a later one: the first lies at most T ahead, each tick of the clock postpones by T, and T is at most H.
const LAST_DEADLINE: u64 = sizes::MOST_FRAME * (sizes::CLOCK_END + 1);

// Whether the work with the cost would be more than may wait.
pub(crate) fn is_too_much(waiting: Length, cost: Length) -> bool
    ensures { result ≡ ltb most_waiting (waiting.ticks + cost.ticks) }
{
    sizes::MOST_WAITING < waiting.ticks.saturating_add(cost.ticks)
}

// Whether a server has no work, no budget left, or a next deadline that 64 bits cannot hold.
#[tactic(auto, unfolding(crate::specs::Steps::unserved))]
pub(crate) fn is_unserved(s: Server) -> bool
    ensures { result ≡ unserved s }
{
    s.waiting.ticks == 0
        || s.remaining.ticks == 0
        || s.deadline.tick.checked_add(s.period.ticks).is_none()
}
