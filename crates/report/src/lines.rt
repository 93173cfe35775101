// The lines of the report, each added behind what the text has. (A usize is a u64 by `as`, since there is no `From` from one to the other.)
#![tactic(auto, using(page::proofs::PageLaws::added_both))]

ghost use Rattle.std.specs.Prelude.{[], ◌++◌, codes, flat_map};
ghost use Rattle.finish.specs.Finish.{finish_of};
ghost use Rattle.refusal.specs.Refusals.{number_of, place_of};
ghost use Rattle.report.specs.DayReport.{refused_line, admitted_line, segment_line, segments_line, job_with, total_field, longest_field, server_line};
ghost use Rattle.text.specs.Line.{bytes_of, decimal, goes_on};
ghost use Rattle.page.specs.Page.{Added};

use arrival::Arrival;
use clock::{Length, Moment};
use page::Page;
use refusal::Refusal;
use summary::{Response, Summary};
use trace::Segment;

pub(crate) fn refused(text: &mut Page<'_, u8>, why: Refusal)
    ensures { Added (refused_line (number_of why) (place_of why)) text.old text.new }
{
    let number = refusal::number(why);
    let place = refusal::place(why) as u64;
    line(text, &[(b"refused ", number), (b" ", place)]);
}

pub(crate) fn admitted(text: &mut Page<'_, u8>, sum: Length, frame: Length)
    ensures { Added (admitted_line sum.ticks frame.ticks) text.old text.new }
{
    line(text, &[(b"admitted ", sum.ticks), (b" of ", frame.ticks)]);
}

pub(crate) fn segment(text: &mut Page<'_, u8>, s: Segment)
    ensures { Added (segment_line s) text.old text.new }
{
    line(
        text,
        &[
            (b"segment ", s.start.tick),
            (b" ", s.length.ticks),
            (b" ", s.server as u64),
            (b" ", s.deadline.tick),
        ],
    );
}

pub(crate) fn segments(text: &mut Page<'_, u8>, count: usize, shown: usize)
    ensures { Added (segments_line count shown) text.old text.new }
{
    line(
        text,
        &[(b"segments ", count as u64), (b" shown ", shown as u64)],
    );
}

// The line of arrival k, whose place of the finish list holds this number.
pub(crate) fn job(text: &mut Page<'_, u8>, k: usize, a: Arrival, finish: u32)
    ensures { Added (job_with a k (finish_of finish)) text.old text.new }
{
    numbers(
        text,
        &[
            (b"job ", k as u64),
            (b" ", a.server as u64),
            (b" ", a.moment.tick),
        ],
    );
    // By number, since that is how the finish list of `run::run` tells of an open job.
    if finish == sizes::OPEN_JOB {
        return text::add(text, b" open -\n");
    }
    let finished = Moment {
        tick: u64::from(finish),
    };
    let response = clock::until(a.moment, finished);
    line(text, &[(b" ", finished.tick), (b" ", response.ticks)]);
}

pub(crate) fn server(text: &mut Page<'_, u8>, i: usize, s: Summary)
    ensures { Added (server_line i s) text.old text.new }
{
    numbers(
        text,
        &[
            (b"server ", i as u64),
            (b" arrived ", s.arrived),
            (b" finished ", s.finished),
        ],
    );
    responses(text, s.response);
    line(
        text,
        &[
            (b" postponed ", s.postponed),
            (b" interrupted ", s.interrupted),
        ],
    );
}

// All responses of a server, as their total and the longest.
fn responses(text: &mut Page<'_, u8>, response: Response)
    ensures { Added ((codes " total " ++ bytes_of (total_field response)) ++ ((codes " longest " ++ bytes_of (longest_field response)) ++ [])) text.old text.new }
{
    match response {
        Response::Absent => text::add(text, b" total - longest -"),
        Response::Over { total, longest } => {
            numbers(
                text,
                &[(b" total ", total.ticks), (b" longest ", longest.ticks)],
            )
        }
    }
}

// Numbers, each behind its words.
fn numbers(text: &mut Page<'_, u8>, all: &[(&[u8], u64)])
    ensures { Added (flat_map (λ n. n.0.now ++ decimal n.1) all.now) text.old text.new }
{
    for &(words, n) in all {
        text::add_numbered(text, words, n);
    }
}

// The last numbers of a line, each behind its words, and the line feed.
fn line(text: &mut Page<'_, u8>, all: &[(&[u8], u64)])
    ensures { Added (flat_map (λ n. n.0.now ++ decimal n.1) all.now ++ goes_on []) text.old text.new }
{
    numbers(text, all);
    text.add(b'\n');
}
