// Runs File P as a work file, and writes what its trace leaves: for each segment, how many ticks were left to its deadline when it ended, and
// of a server's bandwidth.
ghost use Rattle.std.specs.Prelude.{◌≡◌};
ghost use Rattle.callers.specs.Traces.{InTime};
ghost use Rattle.test_in_time.specs.Working.Lists.{AfterRun};
ghost use Rattle.test_in_time.specs.Working.Segments.{AllInTime};

use crate::bandwidth::Window;
use crate::{lists, say};
use clock::{Length, Moment};
use trace::Segment;

// File P: a header, two servers and three arrivals. The trace list holds 6 segments, one more than there are.
pub(crate) fn file_p(rt: &impl Print) {
    let numbers = [10, 12, 2, 24, 3, 40, 2, 5, 3, 5, 0, 0, 5, 0, 1, 3, 6, 1, 2];
    let mut file = [0; 76];
    lay(&numbers, &mut file);
    let mut list = [0; 24];
    let mut finishes = [0; 3];
    run(rt, &file, &mut list, &mut finishes);
}

// Writes numbers into the bytes of a file, whose other bytes are 0: a number of a file has 32 bits, low byte first.
fn lay(numbers: &[u8], file: &mut [u8]) {
    for (word, number) in file.chunks_exact_mut(4).zip(numbers) {
        word[0] = *number;
    }
}

// Runs the file, and writes what demand 3 says of the lists that an accepted one leaves.
fn run(rt: &impl Print, file: &[u8], list: &mut [u64], finishes: &mut [u32]) {
    let ran = run::run(file, list, finishes);
    let verdict = ran.verdict;
    if let Ok(()) = verdict {
        lines(rt, file, list, ran.segments, finishes);
    }
}

// A line for each segment, and for each of some windows. Server 0 has work waiting at 6, so its window from there on has none.
fn lines(rt: &impl Print, file: &[u8], list: &[u64], count: usize, finishes: &[u32])
    requires { AfterRun file.now list.now count finishes.now }
{
    segments(rt, list, count);
    lists::line(rt, file, list, count, finishes, window(0, 0, 10));
    lists::line(rt, file, list, count, finishes, window(0, 6, 15));
    lists::line(rt, file, list, count, finishes, window(1, 6, 11));
}

// A line for each segment that the list holds.
fn segments(rt: &impl Print, list: &[u64], count: usize)
    requires { AllInTime count list.now }
{
    for k in 0..lists::held(list, count) {
        segment(rt, k, trace::segment_at(list, k));
    }
}

// The line of segment k.
fn segment(rt: &impl Print, k: usize, s: Segment)
    requires { InTime s }
{
    say::segment(rt, k, s.server, s.deadline, spare(s));
}

// What lies between the end of a segment and its deadline, which its caller knows to be no earlier.
fn spare(s: Segment) -> Length
    requires { InTime s }
{
    Length {
        ticks: s.deadline.tick - (s.start.tick + s.length.ticks),
    }
}

// A server's window from a moment to another.
fn window(server: usize, from: u64, to: u64) -> Window
    ensures { result.to.tick ≡ to }
{
    Window {
        server,
        from: Moment { tick: from },
        to: Moment { tick: to },
    }
}
