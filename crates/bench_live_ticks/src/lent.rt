// One dispatcher is kept, and lent to each tick, which alters it there.
ghost use Rattle.std.specs.Prelude.{◌≡◌};
ghost use Rattle.dispatcher.specs.Within.{Within};
ghost use Rattle.bench_live_ticks.specs.Working.Ticks.{tallied};

use crate::tally;
use crate::tally::{Tallied, Tally};
use dispatcher::Dispatcher;

// So many ticks, from a dispatcher on.
pub(crate) fn ticks(start: Dispatcher, count: u64) -> Tallied
    requires { Within start }
    ensures value { result ≡ tallied start count }
    ensures within { Within result.dispatcher }
{
    let mut d = start;
    let mut tally = Tally::default();
    for _ in 0..count {
        tally = tally::with(tally, live_loop::tick(&mut d));
    }
    Tallied {
        tally,
        dispatcher: d,
    }
}
