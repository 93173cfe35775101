// Step 2 of a moment: which server the tick goes to.
ghost use Rattle.std.specs.Prelude.{MatchOption};
ghost use Rattle.dispatcher.specs.Pick.{Earliest, NoneWorks};
ghost use Rattle.dispatcher.specs.Within.{Within};

use crate::Dispatcher;
use clock::Moment;

// The number of the server with the earliest deadline among those with work, the lowest of several.
#[tactic(auto)]
pub(crate) fn pick(d: Dispatcher) -> Option<usize>
    requires { Within d }
    ensures { MatchOption result (NoneWorks d d.count) (λ i. Earliest d d.count i) }
{
    let mut best: Option<(usize, Moment)> = None;
    for (i, s) in d.servers[..d.count].iter().enumerate() {
        if steps::is_passed_over(*s) {
            continue;
        }
        match best {
            Some((_, least)) if least <= s.deadline => (),
            _ => best = Some((i, s.deadline)),
        }
    }
    best.map(|(i, _)| i)
}
