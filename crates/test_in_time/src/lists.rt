// A server's ticks in a run, told from the lists that it has left: whether the server had no work waiting at a moment by the finish list, and
// what it got from then on by the trace list.
ghost use Rattle.std.specs.Prelude.{◌≤◌, length, ◌≡◌};
ghost use Rattle.callers.specs.Traces.{InTime};
ghost use Rattle.clock.specs.Clock.{last_tick};
ghost use Rattle.judgement.proofs.FitLaws.{Fit};
ghost use Rattle.sizes.specs.Sizes.{clock_end};
ghost use Rattle.test_in_time.specs.Working.Lists.{AfterRun, in_run, is_done, all_done, got_of, got_by};
ghost use Rattle.test_in_time.specs.Working.Segments.{AllInTime};
ghost use Rattle.trace.specs.Written.{fitting};
ghost use Rattle.workfile.specs.Work.{work};

use crate::bandwidth;
use crate::bandwidth::Window;
use arrival::Arrival;
use booking::Booking;
use clock::Moment;
use trace::Segment;

// The line of a window, where its server had no work waiting when it starts.
pub(crate) fn line(
    rt: &impl Print,
    file: &[u8],
    list: &[u64],
    segments: usize,
    finishes: &[u32],
    w: Window,
)
    requires after_run { AfterRun file.now list.now segments finishes.now }
    requires tick_le_clock_end { w.to.tick ≤ clock_end }
{
    if is_in_run(file, w) && is_idle(file, finishes, w) {
        bandwidth::line(
            rt,
            "run",
            booking_of(file, w.server),
            w,
            got(list, segments, w),
        );
    }
}

// Whether the file has the window's server, and is run to the window's start at least.
#[tactic(auto, using(books::proofs::Accepted::horizon_read, books::proofs::Accepted::servers_read))]
fn is_in_run(file: &[u8], w: Window) -> bool
    ensures { result ≡ in_run w (work file.now) }
{
    let h = workfile::header_of(file);
    w.server < h.servers.count && w.from <= h.horizon
}

// Whether no job waits for the window's server at its start, by the finish list.
fn is_idle(file: &[u8], finishes: &[u32], w: Window) -> bool
    requires { Fit (work file.now) (length finishes.now) }
    ensures { result ≡ all_done w (work file.now) finishes.now }
{
    let h = workfile::header_of(file);
    for k in 0..h.arrivals.count {
        let job = listing::arrival_of(file, h, k);
        if !is_done(w, job, finishes[k]) {
            return false;
        }
    }
    true
}

// Whether a job (for which the list has a number, an open one's is the largest) is another server's, or arrives no earlier than the window starts, or has finished by then.
fn is_done(w: Window, job: Arrival, finish: u32) -> bool
    ensures { result ≡ is_done w job finish }
{
    job.server != w.server || w.from <= job.moment || u64::from(finish) <= w.from.tick
}

// The booking of a server.
fn booking_of(file: &[u8], i: usize) -> Booking
    ensures { result ≡ (work file.now).table.booking i }
{
    let h = workfile::header_of(file);
    listing::booking_of(file, h, i)
}

// What the window's server got, by the segments that the list holds.
fn got(list: &[u64], segments: usize, w: Window) -> u64
    requires all_in_time { AllInTime segments list.now }
    requires list_bound { got_by w segments list.now ≤ last_tick }
    ensures { result ≡ got_by w segments list.now }
{
    let held = held(list, segments);
    let mut sum = 0;
    for k in 0..held {
        let s = trace::segment_at(list, k);
        sum += got_of(w, s);
    }
    sum
}

// How many of so many segments a trace list holds.
pub(crate) fn held(list: &[u64], count: usize) -> usize
    ensures { result ≡ fitting count list.now }
{
    count.min(list.len() / 4)
}

// What it got by one segment.
fn got_of(w: Window, s: Segment) -> u64
    requires { InTime s }
    ensures { result ≡ got_of w s }
{
    if !bandwidth::counts(w, s.server, s.deadline) {
        return 0;
    }
    let end = Moment {
        tick: s.start.tick + s.length.ticks,
    };
    let since = clock::until(w.from, end);
    s.length.min(since).ticks
}
