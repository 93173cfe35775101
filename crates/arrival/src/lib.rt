// An arrival, which brings work to one server at one moment, and whether what it names can be taken.
#![tactic(auto)]

ghost use Rattle.std.specs.Prelude.{◌≡◌};
ghost use Rattle.arrival.specs.Arrival.{faulty_arrival};

use clock::{Length, Moment};

#[derive(Clone, Copy, PartialEq, Eq, Default, Debug)]
pub struct Arrival {
    pub moment: Moment,
    pub server: usize,
    pub cost: Length,
}

// Whether an arrival at a table of `count` servers names no server of it, or a cost out of range.
pub fn is_faulty(count: usize, server: usize, cost: Length) -> bool
    ensures { result ≡ faulty_arrival count server cost }
{
    server >= count || !(1..=sizes::MOST_COST).contains(&cost.ticks)
}
