// The dispatcher is passed to each tick, and handed back.
ghost use Rattle.std.specs.Prelude.{◌≡◌};
ghost use Rattle.dispatcher.specs.Within.{Within};
ghost use Rattle.bench_live_ticks.specs.Working.Ticks.{tallied};

use crate::tally;
use crate::tally::{Tallied, Tally};
use dispatcher::Dispatcher;

// So many ticks, from a dispatcher on. A twin of `lent::ticks`: one loop of both, by a trait, took 4,419 instructions a tick by value, not 1,769.
pub(crate) fn ticks(mut d: Dispatcher, count: u64) -> Tallied
    requires { Within d }
    ensures value { result ≡ tallied d count }
    ensures within { Within result.dispatcher }
{
    let mut tally = Tally::default();
    for _ in 0..count {
        let t = dispatcher::tick(d);
        let answer = t.answer;
        tally = tally::with(tally, answer);
        d = t.dispatcher;
    }
    Tallied {
        tally,
        dispatcher: d,
    }
}
