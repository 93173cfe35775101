// The 64 records of a run, told when it is over from its work file, its finish list and the counts that were kept beside it. Handed on in
// the run's own loop the array would take longer than the rest of it. Each job, and then each server's counts, change one record of the
// array, which is handed on and back by value.
#![tactic(auto)]

ghost use Rattle.std.specs.Prelude.{◌≡◌, ◌+◌, ◌≤◌, min, get_or};
ghost use Rattle.clock.specs.Clock.{last_tick};
ghost use Rattle.sizes.specs.Sizes.{most_servers, open_job};
ghost use Rattle.summary.proofs.SummaryLaws.{total_of, with_response};
ghost use Rattle.workfile.specs.Work.{work, work_under};
ghost use Rattle.records.specs.Working.Job.{filled, finish_by, is_open_at, Roomy, records_up_to, with_job};
ghost use Rattle.records.specs.Records.{records_of};

use clock::{Length, Moment};
use summary::{Response, Summary};
use workfile::Header;

// The records that a file, a finish list and the counts of each server tell. (Two lists of counts, as `records_of` takes them.)
pub fn of_run(
    file: &[u8],
    finishes: &[u32],
    postponed: &[u64; sizes::MOST_SERVERS],
    interrupted: &[u64; sizes::MOST_SERVERS],
) -> [Summary; sizes::MOST_SERVERS]
    ensures { result ≡ records_of (work file.now) finishes.now postponed.now interrupted.now }
{
    let h = workfile::header_of(file);
    let servers = h.servers.count.min(sizes::MOST_SERVERS);
    fill(
        of_arrivals(file, h, servers, finishes),
        servers,
        postponed,
        interrupted,
    )
}

// Those that the arrivals under a header tell of so many servers, job by job in file order.
#[tactic(auto, using(crate::proofs::GrowthLaws::records_none, crate::proofs::GrowthLaws::records_roomy))]
fn of_arrivals(
    file: &[u8],
    h: Header,
    servers: usize,
    finishes: &[u32],
) -> [Summary; sizes::MOST_SERVERS]
    requires servers_value { servers ≡ min h.servers.count most_servers }
    requires count_le_open_job { h.arrivals.count ≤ open_job }
    ensures { result ≡ records_up_to (work_under h file.now) finishes.now h.arrivals.count }
{
    let mut records = summary::blank_records();
    for k in 0..h.arrivals.count {
        let a = listing::arrival_of(file, h, k);
        let i = a.server;
        if i < servers {
            let s = with_job(records[i], a.moment, finish_in(finishes, k));
            records = summary::with_record(records, i, s);
        }
    }
    records
}

// What the list has for job k; one that has no place in it is open. (By a number: the list that a run leaves has numbers alone.)
fn finish_in(finishes: &[u32], k: usize) -> u32
    ensures { result ≡ get_or finishes.now k open_job }
{
    finishes.get(k).copied().unwrap_or(sizes::OPEN_JOB)
}

// A record with one job more, which came then and for which the list has `finish`: an open one has arrived, any other has finished too.
#[tactic(auto, using(crate::proofs::GrowthLaws::finish_by_open, crate::proofs::GrowthLaws::finish_by_at), unfolding(crate::specs::Working::Job::with_job))]
fn with_job(s: Summary, came: Moment, finish: u32) -> Summary
    requires { Roomy s finish }
    ensures { result ≡ with_job s came (finish_by came finish) }
{
    let arrived = s.arrived + 1;
    let end = Moment {
        tick: u64::from(finish),
    };
    if is_open(came, end) {
        return Summary { arrived, ..s };
    }
    Summary {
        arrived,
        finished: s.finished + 1,
        response: with_response(s.response, clock::until(came, end)),
        ..s
    }
}

// Whether what the list has is no finish of a job that came then: an open job's number, or one that is not after it, as 0.
fn is_open(came: Moment, finish: Moment) -> bool
    ensures { result ≡ is_open_at came finish.tick }
{
    finish <= came || finish.tick == u64::from(sizes::OPEN_JOB)
}

// The response over one job more.
#[tactic(auto, using(clock::proofs::OrderLaws::longer_is, summary::proofs::SummaryLaws::total_over, summary::proofs::SummaryLaws::with_response_first, summary::proofs::SummaryLaws::with_response_more))]
fn with_response(before: Response, lasted: Length) -> Response
    requires { total_of before + lasted.ticks ≤ last_tick }
    ensures { result ≡ with_response before lasted.ticks }
{
    let Response::Over { total, longest } = before else {
        return Response::Over {
            total: lasted,
            longest: lasted,
        };
    };
    Response::Over {
        total: Length {
            ticks: total.ticks + lasted.ticks,
        },
        longest: longest.max(lasted),
    }
}

// The records, those of the first servers with the counts that were kept beside them.
#[tactic(auto, using(crate::proofs::FilledLaws::filled_none))]
fn fill(
    mut records: [Summary; sizes::MOST_SERVERS],
    servers: usize,
    postponed: &[u64; sizes::MOST_SERVERS],
    interrupted: &[u64; sizes::MOST_SERVERS],
) -> [Summary; sizes::MOST_SERVERS]
    requires { servers ≤ most_servers }
    ensures { result ≡ filled servers postponed.now interrupted.now records }
{
    for i in 0..servers {
        let s = Summary {
            postponed: postponed[i],
            interrupted: interrupted[i],
            ..records[i]
        };
        records = summary::with_record(records, i, s);
    }
    records
}
