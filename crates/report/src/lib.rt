// The day report of a work file, as text in a lent buffer, and that no report is longer than its text.
#![tactic(auto)]

mod lines;

ghost use Rattle.std.specs.Prelude.{◌≤◌, length, get_or, ◌≡◌};
ghost use Rattle.booking.specs.Admission.{shares};
ghost use Rattle.books.proofs.Accepted.{Accepted};
ghost use Rattle.report.specs.DayReport.{accepted_report, day_report, segment_line, server_line};
ghost use Rattle.report.specs.Working.AfterRun.{AfterRun, job_in};
ghost use Rattle.sizes.specs.Sizes.{most_arrivals, most_servers};
ghost use Rattle.summary.specs.Summary.{blank, trace_of};
ghost use Rattle.page.specs.Page.{added, Added, each};
ghost use Rattle.trace.specs.Written.{segment_in};
ghost use Rattle.workfile.specs.Work.{work};

use clock::Length;
use page::Page;
use summary::Summary;

// No report is longer (`report_fits` of proofs/LengthLaws.antt).
pub const MOST_BYTES: usize = 262144;

// The day report of a file, from the start of the text on, as much of it as fits. Answers how many bytes that is.
pub fn day_report(file: &[u8], text: &mut [u8]) -> usize
    ensures { (text.new, result) ≡ added (day_report file.now) (text.old, 0) }
{
    let mut page = Page {
        list: text,
        next: 0,
    };
    report(&mut page, file);
    page.next
}

// The report of a file, added to a page.
fn report(text: &mut Page<'_, u8>, file: &[u8])
    ensures { Added (day_report file.now) text.old text.new }
{
    let mut list = [0; sizes::TRACE_NUMBERS];
    let mut finishes = [0; sizes::MOST_ARRIVALS];
    let ran = run::run(file, &mut list, &mut finishes);
    let verdict = ran.verdict;
    let summaries = ran.summaries;
    match verdict {
        Ok(()) => accepted(text, file, &list, &finishes, ran.segments, summaries),
        Err(why) => lines::refused(text, why),
    }
}

// The report of an accepted file, from what the run left.
fn accepted(
    text: &mut Page<'_, u8>,
    file: &[u8],
    list: &[u64],
    finishes: &[u32],
    segments: usize,
    records: [Summary; sizes::MOST_SERVERS],
)
    requires { AfterRun file.now list.now finishes.now segments records }
    ensures { Added (accepted_report (work file.now) (trace_of (work file.now))) text.old text.new }
{
    let h = workfile::header_of(file);
    let shown = segments.min(list.len() / 4);
    lines::admitted(text, shares(file), h.frame);
    segment_lines(text, list, shown);
    lines::segments(text, segments, shown);
    job_lines(text, file, finishes);
    server_lines(text, records, h.servers.count);
}

// The sum of the shares of an accepted file's table: what its booking sheet takes off the frame.
fn shares(file: &[u8]) -> Length
    requires { Accepted file.now }
    ensures { result.ticks ≡ shares (work file.now).frame (work file.now).table }
{
    let h = workfile::header_of(file);
    let left = booking::left_on(listing::sheet_of(file, h));
    Length {
        ticks: h.frame.ticks - left.ticks,
    }
}

// The lines of the first segments of a trace list.
fn segment_lines(text: &mut Page<'_, u8>, list: &[u64], shown: usize)
    ensures { Added (each shown (λ k. segment_line (segment_in list.now k))) text.old text.new }
{
    for k in 0..shown {
        lines::segment(text, trace::segment_at(list, k));
    }
}

// The lines of all jobs of an accepted file.
fn job_lines(text: &mut Page<'_, u8>, file: &[u8], finishes: &[u32])
    requires accepted { Accepted file.now }
    requires finishes_len { length finishes.now ≡ most_arrivals }
    ensures { Added (each (work file.now).arrivals (job_in (work file.now) finishes.now)) text.old text.new }
{
    let h = workfile::header_of(file);
    for (k, &finish) in finishes[..h.arrivals.count].iter().enumerate() {
        lines::job(text, k, listing::arrival_of(file, h, k), finish);
    }
}

// The lines of the first servers.
fn server_lines(text: &mut Page<'_, u8>, records: [Summary; sizes::MOST_SERVERS], servers: usize)
    requires { servers ≤ most_servers }
    ensures { Added (each servers (λ i. server_line i (get_or records i blank))) text.old text.new }
{
    // By number, which the line has too: `records[..servers].iter().enumerate()` says no more.
    for i in 0..servers {
        lines::server(text, i, records[i]);
    }
}
