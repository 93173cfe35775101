// The moves of a list on a dispatcher, in either form, and their answers written.
ghost use Rattle.std.specs.Prelude.{◌≡◌};
ghost use Rattle.dispatcher.specs.Within.{Within};
ghost use Rattle.test_live_moves.specs.Working.Played.{moved_by, played};

use crate::form::Form;
use crate::say;
use crate::script::{Move, Often};
use dispatcher::Dispatcher;

// Of a move that is made often only the last answers are written.
const WRITTEN: u64 = 6;

// The moves of the list, from a dispatcher on.
pub(crate) fn play<F: Form>(rt: &impl Print, start: Dispatcher, list: &[Often]) -> Dispatcher
    requires { Within start }
    ensures value { result ≡ played start list.now }
    ensures within { Within result }
{
    let mut d = start;
    for often in list {
        for k in 0..often.times {
            turn::<F>(rt, &mut d, often.of, often.times - k <= WRITTEN);
        }
    }
    d
}

// One move, and its answer where it is written.
fn turn<F: Form>(rt: &impl Print, d: &mut Dispatcher, m: Move, written: bool)
    requires { Within d.old }
    ensures d_after { d.new ≡ moved_by d.old m }
    ensures within { Within d.new }
{
    let now = d.clock;
    match m {
        Move::Tick => say::tick(rt, now, F::tick(d), written),
        Move::Arrival { server, cost } => {
            say::arrival(rt, now, server, cost, F::arrival(d, server, cost), written)
        }
    }
}
