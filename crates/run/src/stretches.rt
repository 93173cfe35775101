// The stretch that a run is in: it goes on, or it ends and another begins. No struct holds the lent list beside it: each contract would have
// to say as well that it still holds the list that was lent. Each premise is of the stretch and the moment together, and so of no type.
ghost use Rattle.std.specs.Prelude.{◌≡◌, ◌<◌, get_or};
ghost use Rattle.books.proofs.Book.{segment_book};
ghost use Rattle.books.proofs.Stretches.Interruptions.{interruptions_after};
ghost use Rattle.books.proofs.Stretches.Segmented.{at_rest};
ghost use Rattle.books.proofs.Stretches.Segments.{list_after, count_after};
ghost use Rattle.books.proofs.Stretches.Turns.{MayEnd, stays, turned};
ghost use Rattle.clock.specs.Clock.{last_tick, moment};
ghost use Rattle.sizes.specs.Sizes.{most_servers};

use books::Current;
use clock::{Length, Moment};
use trace::Segment;

// The stretch at the start: nobody's, and of no length.
pub(crate) fn at_rest() -> Current
    ensures { result ≡ at_rest }
{
    let start = Moment { tick: 0 };
    Current {
        start,
        server: sizes::MOST_SERVERS,
        deadline: start,
        waits: Length { ticks: 0 },
        count: 0,
    }
}

// The tick at t goes to nobody.
pub(crate) fn idle(list: &mut [u64], c: Current, t: Moment) -> Current
    requires { MayEnd t.tick c }
    ensures { segment_book list.new result ≡ turned (segment_book list.old c) t.tick most_servers (moment 0) }
{
    turn_to(list, c, t, sizes::MOST_SERVERS, Moment { tick: 0 })
}

// The tick at t goes to server i under this deadline. Where that is another than before, the stretch before it has ended.
pub(crate) fn turn_to(
    list: &mut [u64],
    c: Current,
    t: Moment,
    i: usize,
    deadline: Moment,
) -> Current
    requires { MayEnd t.tick c }
    ensures { segment_book list.new result ≡ turned (segment_book list.old c) t.tick i deadline }
{
    if goes_on(c, i, deadline) {
        return c;
    }
    let count = end_segment(list, c, t);
    Current {
        start: t,
        server: i,
        deadline,
        count,
        ..c
    }
}

// Whether that server and that deadline are those of the stretch.
fn goes_on(c: Current, i: usize, deadline: Moment) -> bool
    ensures { result ≡ stays c i deadline }
{
    c.server == i && c.deadline == deadline
}

// Server i has the next tick: one interruption more of the stretch's server, where it is interrupted by that.
pub(crate) fn interrupt(interrupted: &mut [u64; sizes::MOST_SERVERS], c: Current, i: usize)
    requires { get_or interrupted.old c.server 0 < last_tick }
    ensures { interrupted.new ≡ interruptions_after c i interrupted.old }
{
    if summary::interrupted_by(c.server, c.waits, i) {
        interrupted[c.server] += 1;
    }
}

// The segment of a stretch that ends at t, and how many have ended then.
pub(crate) fn end_segment(list: &mut [u64], c: Current, t: Moment) -> usize
    requires { MayEnd t.tick c }
    ensures value { result ≡ count_after c }
    ensures list_after { list.new ≡ list_after c t.tick list.old }
{
    let Current {
        start,
        server,
        deadline,
        count,
        ..
    } = c;
    if sizes::MOST_SERVERS <= server {
        return count;
    }
    let length = clock::until(start, t);
    trace::write(
        list,
        count,
        Segment {
            start,
            length,
            server,
            deadline,
        },
    );
    count + 1
}
