// The dispatch trace: segments, and the lent list that holds the first of them.
#![tactic(auto)]

ghost use Rattle.std.specs.Prelude.{get_or, ◌≡◌};
ghost use Rattle.trace.specs.Written.{put, segment_in};

use clock::{Length, Moment};

// Consecutive ticks that were given to one server under one deadline.
#[derive(Clone, Copy)]
pub struct Segment {
    pub start: Moment,
    pub length: Length,
    pub server: usize,
    pub deadline: Moment,
}

// Segment k in its four places of the list, where it has them all; where it has not, no place changes. (Document 01 lends a list of numbers,
// four to a segment.)
#[tactic(auto, using(crate::proofs::WrittenLaws::put_laid, crate::proofs::WrittenLaws::put_short))]
pub fn write(list: &mut [u64], k: usize, s: Segment)
    ensures { list.new ≡ put k s list.old }
{
    if k < list.len() / 4 {
        let at = 4 * k;
        // A server's number is widened by `as`: there is no `From` between `usize` and `u64`.
        list[at..at + 4].copy_from_slice(&[
            s.start.tick,
            s.length.ticks,
            s.server as u64,
            s.deadline.tick,
        ]);
    }
}

// Segment k as it stands in its four places of the list. What stands behind the end counts 0.
pub fn segment_at(list: &[u64], k: usize) -> Segment
    ensures { result ≡ segment_in list.now k }
{
    let at = k.saturating_mul(4).min(list.len());
    let start = number_at(list, at);
    let length = number_at(list, at + 1);
    let server = number_at(list, at + 2) as usize;
    let deadline = number_at(list, at + 3);
    Segment {
        start: Moment { tick: start },
        length: Length { ticks: length },
        server,
        deadline: Moment { tick: deadline },
    }
}

// A number of the list, or 0 where that is behind the end.
fn number_at(list: &[u64], at: usize) -> u64
    ensures { result ≡ get_or list.now at 0 }
{
    list.get(at).copied().unwrap_or(0)
}
