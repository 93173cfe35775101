// The answers of live moves as lines of text. A line that cannot be written is missing from the output.
ghost use Rattle.dispatcher.specs.Within.{Within};

use clock::{Length, Moment};
use dispatcher::{Dispatcher, Turn};
use refusal::Refusal;

pub(crate) fn line(rt: &impl Print, text: &str) {
    let _ = println!(rt; "{text}");
}

// A table by its frame and how many numbers it has.
pub(crate) fn opening(rt: &impl Print, frame: u64, numbers: usize, answer: Result<(), Refusal>) {
    let _ = print!(rt; "open H {frame}, {numbers} numbers: ");
    verdict(rt, answer);
}

pub(crate) fn arrival(
    rt: &impl Print,
    now: Moment,
    server: usize,
    cost: Length,
    answer: Result<(), Refusal>,
    written: bool,
) {
    if !written {
        return;
    }
    let _ = print!(rt;
        "at {} arrival of {} at server {server}: ",
        now.tick, cost.ticks
    );
    verdict(rt, answer);
}

pub(crate) fn tick(rt: &impl Print, now: Moment, answer: Result<Turn, Refusal>, written: bool) {
    if !written {
        return;
    }
    let _ = print!(rt; "at {} tick: ", now.tick);
    match answer {
        Ok(Turn::Idle) => line(rt, "idle"),
        Ok(
            Turn::Ran {
                server,
                deadline,
                postponed,
            },
        ) => ran(rt, server, deadline, postponed),
        Err(why) => refused(rt, why),
    }
}

// The dispatcher: its frame, its clock and what each server holds.
pub(crate) fn servers(rt: &impl Print, d: Dispatcher)
    requires { Within d }
{
    let _ = println!(rt; "H {}, clock {}", d.frame.ticks, d.clock.tick);
    for (i, s) in d.servers[..d.count].iter().enumerate() {
        let (c, d, w) = (s.remaining.ticks, s.deadline.tick, s.waiting.ticks);
        let _ = println!(rt; "server {i}: c {c} d {d} w {w}");
    }
}

fn ran(rt: &impl Print, server: usize, deadline: Moment, postponed: bool) {
    let end = if postponed { ", postponed" } else { "" };
    let _ = println!(rt; "server {server} under {}{end}", deadline.tick);
}

fn verdict(rt: &impl Print, answer: Result<(), Refusal>) {
    match answer {
        Ok(()) => line(rt, "accepted"),
        Err(why) => refused(rt, why),
    }
}

fn refused(rt: &impl Print, why: Refusal) {
    let _ = println!(rt;
        "refused {} at {}",
        refusal::number(why),
        refusal::place(why)
    );
}
