// The two forms of the live moves: the dispatcher is passed to each and handed back, or kept and lent.
ghost use Rattle.std.specs.Prelude.{◌≡◌};
ghost use Rattle.dispatcher.specs.Moves.{arrival, leaving, tick};
ghost use Rattle.dispatcher.specs.Within.{Within};
ghost use Rattle.refusal.specs.Refusals.{on_paper};

use clock::Length;
use dispatcher::{Dispatcher, Turn};
use refusal::Refusal;

// A form of the moves, on the dispatcher that is kept from one move to the next.
pub(crate) trait Form {
    fn arrival(d: &mut Dispatcher, server: usize, cost: Length) -> Result<(), Refusal>
        requires { Within d.old }
        ensures d_after { leaving (on_paper result) d.new ≡ arrival d.old server cost }
        ensures within { Within d.new };

    fn tick(d: &mut Dispatcher) -> Result<Turn, Refusal>
        requires { Within d.old }
        ensures d_after { leaving (on_paper result) d.new ≡ tick d.old }
        ensures within { Within d.new };
}

// As `live_loop` does it: its moves are what this is compared with.
pub(crate) struct ByValue;

impl Form for ByValue {
    fn arrival(d: &mut Dispatcher, server: usize, cost: Length) -> Result<(), Refusal> {
        let a = dispatcher::arrival(*d, server, cost);
        *d = a.dispatcher;
        a.answer
    }

    fn tick(d: &mut Dispatcher) -> Result<Turn, Refusal> {
        let t = dispatcher::tick(*d);
        *d = t.dispatcher;
        t.answer
    }
}

pub(crate) struct Lent;

impl Form for Lent {
    fn arrival(d: &mut Dispatcher, server: usize, cost: Length) -> Result<(), Refusal> {
        live_loop::arrival(d, server, cost)
    }

    fn tick(d: &mut Dispatcher) -> Result<Turn, Refusal> {
        live_loop::tick(d)
    }
}
