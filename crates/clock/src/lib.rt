// Moments on the clock and lengths of work or time, kept apart: a moment and a length give a moment, two moments give a length,
// and two moments are never added. Every function is proved for all numbers.
#![tactic(auto)]

ghost use Rattle.std.specs.Prelude.{◌≡◌};
ghost use Rattle.clock.specs.Clock.{later, until, up_to_last};

// A place on the clock, as a deadline. The earlier of two is the lesser.
#[derive(Clone, Copy, PartialEq, Eq, PartialOrd, Ord, Default, Debug)]
pub struct Moment {
    pub tick: u64,
}

// An amount of work or time, as a budget. The shorter of two is the lesser.
#[derive(Clone, Copy, PartialEq, Eq, PartialOrd, Ord, Default, Debug)]
pub struct Length {
    pub ticks: u64,
}

// The last moment that 64 bits can hold. No dispatcher's clock or deadline comes near it.
pub const LAST_TICK: u64 = u64::MAX;

// The moment that lies `by` after `from`, or the last one that 64 bits can hold where that is beyond it.
pub fn later(from: Moment, by: Length) -> Moment
    ensures { result ≡ up_to_last (later from by) }
{
    Moment {
        tick: from.tick.saturating_add(by.ticks),
    }
}

// How far `to` lies ahead of `from`: no way at all where it has passed.
pub fn until(from: Moment, to: Moment) -> Length
    ensures { result ≡ until from to }
{
    Length {
        ticks: to.tick.saturating_sub(from.tick),
    }
}
