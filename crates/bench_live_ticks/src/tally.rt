// What the answers of ticks come to.
ghost use Rattle.std.specs.Prelude.{◌-◌, ◌^◌, ◌≡◌};
ghost use Rattle.refusal.specs.Refusals.{on_paper};
ghost use Rattle.bench_live_ticks.specs.Working.Ticks.{UpTo, counted};

use dispatcher::{Dispatcher, Turn};
use refusal::Refusal;

#[derive(Clone, Copy, Default)]
pub struct Tally {
    // How many ticks went to a server, and how many of those postponed it.
    pub ran: u64,
    pub postponed: u64,
    pub idle: u64,
}

// Ticks and the dispatcher after them.
#[derive(Clone, Copy)]
pub struct Tallied {
    pub tally: Tally,
    pub dispatcher: Dispatcher,
}

// Of one tick more. A refused one does not count.
pub(crate) fn with(mut t: Tally, answer: Result<Turn, Refusal>) -> Tally
    requires { UpTo (2 ^ 64 - 2) t }
    ensures { result ≡ counted t (on_paper answer) }
{
    match answer {
        Ok(Turn::Idle) => t.idle += 1,
        Ok(
            Turn::Ran {
                server: _,
                deadline: _,
                postponed,
            },
        ) => {
            t.ran += 1;
            t.postponed += u64::from(postponed);
        }
        Err(_) => (),
    }
    t
}
