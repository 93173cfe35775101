// The live loop's moves: an arrival and a tick on a dispatcher that is lent, which each alters there; and that both forms of the moves
// agree. The loop keeps one dispatcher and lends it to every move. Each is thin over the move of crate `dispatcher` that takes the
// dispatcher by value and hands it back, and has the same one premise, which it keeps.
#![tactic(auto)]

ghost use Rattle.std.specs.Prelude.{◌≡◌};
ghost use Rattle.dispatcher.specs.Moves.{leaving, arrival, tick};
ghost use Rattle.dispatcher.specs.Within.{Within};
ghost use Rattle.refusal.specs.Refusals.{on_paper};

use clock::Length;
use dispatcher::{Dispatcher, Turn};
use refusal::Refusal;

// Work for one server at this moment of the clock: refused by 6 or 11, or else accepted.
pub fn arrival(d: &mut Dispatcher, server: usize, cost: Length) -> Result<(), Refusal>
    requires { Within d.old }
    ensures d_after { leaving (on_paper result) d.new ≡ arrival d.old server cost }
    ensures within { Within d.new }
{
    let a = dispatcher::arrival(*d, server, cost);
    *d = a.dispatcher;
    a.answer
}

// One tick of the clock: refused by 10, or else idle, or given to the server with the earliest deadline.
pub fn tick(d: &mut Dispatcher) -> Result<Turn, Refusal>
    requires { Within d.old }
    ensures d_after { leaving (on_paper result) d.new ≡ tick d.old }
    ensures within { Within d.new }
{
    let t = dispatcher::tick(*d);
    *d = t.dispatcher;
    t.answer
}
