// What a run gives as lines of text. What cannot be written is missing from the output.
use refusal::Refusal;
use std::fmt::Display;
use summary::{Response, Summary};

pub(crate) fn verdict(rt: &impl Print, answer: Result<(), Refusal>) {
    match answer {
        Ok(()) => accepted(rt),
        Err(why) => refused(rt, why),
    }
}

fn accepted(rt: &impl Print) {
    let _ = println!(rt; "accepted");
}

fn refused(rt: &impl Print, why: Refusal) {
    let _ = println!(rt; "refused {} {}", refusal::number(why), refusal::place(why));
}

pub(crate) fn segments(rt: &impl Print, count: usize) {
    let _ = println!(rt; "segments {count}");
}

// The numbers of a list behind its name.
pub(crate) fn list<T: Display + Copy>(rt: &impl Print, name: &str, list: &[T]) {
    let _ = print!(rt; "{name}");
    for &n in list {
        let _ = print!(rt; " {n}");
    }
    let _ = println!(rt);
}

// A line for each record that is not blank.
pub(crate) fn servers(rt: &impl Print, records: &[Summary]) {
    for (i, &s) in records.iter().enumerate() {
        if s != Summary::default() {
            server(rt, i, s);
        }
    }
}

fn server(rt: &impl Print, i: usize, s: Summary) {
    let _ = print!(rt; "server {i} arrived {} finished {}", s.arrived, s.finished);
    match s.response {
        Response::Absent => {
            let _ = print!(rt; " total - longest -");
        }
        Response::Over { total, longest } => {
            let _ = print!(rt; " total {} longest {}", total.ticks, longest.ticks);
        }
    }
    let _ = println!(rt; " postponed {} interrupted {}", s.postponed, s.interrupted);
}
