// A server through several ticks at once.
ghost use Rattle.std.specs.Prelude.{◌≡◌, ◌+◌, ◌-◌, ◌*◌, ◌≤◌};
ghost use Rattle.books.proofs.Spell.Planned.{MayServe};
ghost use Rattle.books.proofs.Tree.Keys.{Picked, key_of};
ghost use Rattle.clock.specs.Clock.{last_tick, ticks};
ghost use Rattle.moments.proofs.OneGo.{served_for};

use clock::Length;
use server::Server;

// The server after so many ticks, which are within its budget and its work.
pub(crate) fn serve(s: Server, by: Length) -> Server
    requires { MayServe s by.ticks }
    ensures { result ≡ served_for s by.ticks }
{
    let remaining = less(s.remaining, by);
    let waiting = less(s.waiting, by);
    if remaining.ticks == 0 {
        Server {
            remaining: s.budget,
            deadline: clock::later(s.deadline, s.period),
            waiting,
            ..s
        }
    } else {
        Server {
            remaining,
            waiting,
            ..s
        }
    }
}

// The key of a server that is passed over: the last number, and no Option, since the climbs of the tree compare numbers alone.
pub(crate) const NO_KEY: u64 = clock::LAST_TICK;

// The key of server i in the winner tree.
pub(crate) fn key_of(s: Server, i: usize) -> u64
    requires { s.deadline.tick * 64 + i ≤ last_tick }
    ensures { result ≡ key_of s i }
{
    if steps::is_passed_over(s) {
        NO_KEY
    } else {
        s.deadline.tick * 64 + i as u64
    }
}

// The server that is picked, by what the root of the winner tree holds.
pub(crate) fn picked(root: u64) -> Option<usize>
    ensures { Picked root result }
{
    if root == NO_KEY {
        None
    } else {
        Some((root % 64) as usize)
    }
}

// What is left of a length when a part of it is gone. No operator of Length: that would be one of `clock`, of which each holds for all numbers.
pub(crate) fn less(all: Length, part: Length) -> Length
    requires { part.ticks ≤ all.ticks }
    ensures { result ≡ ticks (all.ticks - part.ticks) }
{
    Length {
        ticks: all.ticks - part.ticks,
    }
}
