// The finish list, the jobs of each server, one behind the other, and which of them each serves.
ghost use Rattle.std.specs.Prelude.{◌≤◌, length, ◌≡◌};
ghost use Rattle.books.proofs.Accepted.{Accepted};
ghost use Rattle.books.proofs.Book.{job_book};
ghost use Rattle.books.proofs.Jobs.Lined.{Lined, Unlined};
ghost use Rattle.books.proofs.Jobs.Opened.{MayGoOn, Opened, Serves, WentOn};
ghost use Rattle.finish.specs.Finish.{finish_list, is_open};
ghost use Rattle.workfile.specs.Work.{work};

use crate::reading;
use books::JobLines;
use clock::{Length, Moment};

// Every job is open at the start. (The list holds that as a number, by the promise of `run`.)
pub(crate) fn open_all(finishes: &mut [u32], m: usize)
    requires { m ≤ length finishes.old }
    ensures { finishes.new ≡ finish_list m (λ k. is_open) finishes.old }
{
    finishes[..m].fill(sizes::OPEN_JOB);
}

// The jobs of each server, one behind the other, from the last arrival to the first, and the first one for it to serve. All places hold the
// count of all arrivals before.
pub(crate) fn line_up(file: &[u8], lines: &mut JobLines)
    requires accepted { Accepted file.now }
    requires unlined { Unlined (work file.now) lines.old }
    ensures lined { Lined (work file.now) 0 lines.new.job lines.new.behind }
    ensures left { lines.new.left ≡ lines.old.left }
{
    let h = workfile::header_of(file);
    for k in (0..h.arrivals.count).rev() {
        let a = reading::arrival_of(file, k);
        let i = a.server;
        lines.behind[k] = lines.job[i];
        lines.job[i] = k;
    }
}

// What is left of the job that server i serves. Where that is nothing, its next job is opened; there is one.
pub(crate) fn left_of(file: &[u8], lines: &mut JobLines, i: usize) -> Length
    requires accepted { Accepted file.now }
    requires serves { Serves (work file.now) i lines.old }
    ensures { Opened (work file.now) i lines.old lines.new result.ticks }
{
    let rest = lines.left[i];
    if rest > 0 {
        return Length { ticks: rest };
    }
    let cost = reading::arrival_of(file, lines.job[i]).cost;
    lines.left[i] = cost.ticks;
    cost
}

// Server i has run so long of its job until t. Where nothing is left of it, it has finished, and the job behind it is next.
pub(crate) fn go_on(finishes: &mut [u32], lines: &mut JobLines, i: usize, by: Length, t: Moment)
    requires { MayGoOn i by.ticks t.tick (job_book lines.old finishes.old) }
    ensures { WentOn i by.ticks t.tick (job_book lines.old finishes.old) (job_book lines.new finishes.new) }
{
    let rest = lines.left[i] - by.ticks;
    lines.left[i] = rest;
    if rest == 0 {
        let ended = lines.job[i];
        finishes[ended] = t.tick as u32;
        lines.job[i] = lines.behind[ended];
    }
}
