// The run of a work file: bytes in, and out come the refusal, or the count of all segments and the first of them, every finish and the 64
// records.
// The rules know a run tick by tick. This one goes from event to event, a server that runs going on until its job is done, another
// wins, or something arrives, and is proved to give what the rules give.
#![tactic(auto)]

mod budgets;
mod jobs;
mod reading;
mod serving;
mod spell;
mod starting;
mod stretches;
mod taking;
mod travel;
mod tree;

ghost use Rattle.std.specs.Prelude.{◌≡◌, length};
ghost use Rattle.judgement.specs.Judgement.{judged};
ghost use Rattle.refusal.specs.Refusals.{accepted};
ghost use Rattle.workfile.specs.Work.{work};
ghost use Rattle.run.specs.Outcome.{accepted_run, outcome, run_says};

use refusal::Refusal;
use summary::Summary;

// A refused run has blank records and no segments (document 01), and so a verdict beside them.
#[derive(Clone, Copy)]
pub struct Ran {
    pub verdict: Result<(), Refusal>,
    // How many segments the whole trace has.
    pub segments: usize,
    pub summaries: [Summary; sizes::MOST_SERVERS],
}

// The run of a work file. The trace list gets the first segments, four numbers each, as many whole ones as fit, and the finish list
// the finish of each arrival; a refusal touches neither.
pub fn run(file: &[u8], list: &mut [u64], finishes: &mut [u32]) -> Ran
    ensures { run_says result list.new finishes.new ≡ outcome file.now list.old finishes.old }
{
    let verdict = judgement::judge(file, finishes.len());
    let Ok(()) = verdict else {
        return Ran {
            verdict,
            segments: 0,
            summaries: summary::blank_records(),
        };
    };
    play(file, list, finishes)
}

// The run of an accepted file.
fn play(file: &[u8], list: &mut [u64], finishes: &mut [u32]) -> Ran
    requires { judged file.now (length finishes.old) ≡ accepted }
    ensures { run_says result list.new finishes.new ≡ accepted_run (work file.now) list.old finishes.old }
{
    let went = travel::travel(file, list, finishes);
    let postponed = went.postponed;
    let interrupted = went.interrupted;
    Ran {
        verdict: Ok(()),
        segments: went.segments,
        summaries: records::of_run(file, finishes, &postponed, &interrupted),
    }
}
