// The summary of a run: 64 records, one for each server, each with the response, which is absent where nothing has finished.
#![tactic(auto)]

ghost use Rattle.std.specs.Prelude.{not, ◌&&◌, ◌≡◌, eqb, ltb, replicate, set};
ghost use Rattle.sizes.specs.Sizes.{most_servers};
ghost use Rattle.summary.specs.Summary.{blank};

use clock::Length;

// How long the jobs of a server took that have finished. A mean is the total over their count. (Document 01 names this enum, so it is no
// `Option` of a pair.)
#[derive(Clone, Copy, PartialEq, Eq, Default, Debug)]
pub enum Response {
    #[default]
    Absent,
    Over { total: Length, longest: Length },
}

// The record of one server; by default a blank one.
#[derive(Clone, Copy, PartialEq, Eq, Default, Debug)]
pub struct Summary {
    pub arrived: u64,
    pub finished: u64,
    pub postponed: u64,
    pub interrupted: u64,
    pub response: Response,
}

// Whether a segment is interrupted that ends with so much work of its server waiting, where server `next` has the very next tick: that is
// another server, and there is work. A number from 64 on is nobody's, as of an idle tick: its promise has it for all numbers.
pub fn interrupted_by(server: usize, waits: Length, next: usize) -> bool
    ensures { result ≡ (ltb server most_servers && ltb next most_servers && ltb 0 waits.ticks && not (eqb server next)) }
{
    server < sizes::MOST_SERVERS && next < sizes::MOST_SERVERS && 0 < waits.ticks && server != next
}

// 64 blank records.
pub fn blank_records() -> [Summary; sizes::MOST_SERVERS]
    ensures { result ≡ replicate most_servers blank }
{
    [Summary::default(); sizes::MOST_SERVERS]
}

// The records with another one at place i; there is none to change where i is no place.
pub fn with_record(
    mut records: [Summary; sizes::MOST_SERVERS],
    i: usize,
    s: Summary,
) -> [Summary; sizes::MOST_SERVERS]
    ensures { result ≡ set records i s }
{
    // Not by `get_mut`: the library says nothing of what the array then ends as, so the proof would not close.
    if i < sizes::MOST_SERVERS {
        records[i] = s;
    }
    records
}
