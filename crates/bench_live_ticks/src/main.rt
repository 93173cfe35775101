// What `bench/ticks` measures against the same in C: it ticks the dispatcher of a work file to the file's horizon, and writes what came of
// it. The word `by-value` or `lent` chooses the form; with no word it ticks in both, one after the other.
#![tactic(auto)]

mod by_value;
mod input;
mod lent;
mod say;
mod tally;
mod work;

use std::env::Env;

fn main(rt: HostRuntime) {
    let mut room = [0; sizes::MOST_FILE];
    let length = input::read_full(&mut rt.reader(), &mut room);
    play(&rt, &room[..length], letter(&rt));
}

// The ticks of a file, in the form that begins with a letter: two tests of it are plainer than an enum of three that is matched twice.
fn play(rt: &impl Print, file: &[u8], letter: u8) {
    let start = work::start(file);
    let count = work::horizon(file);
    if letter != b'l' {
        say::all(rt, by_value::ticks(start, count));
    }
    if letter != b'b' {
        say::all(rt, lent::ticks(start, count));
    }
}

// The first letter of the word, 0 where there is none. No Option: an empty word and none at all choose the same.
fn letter(rt: &impl Env) -> u8 {
    let mut word = [0u8; 8];
    let _ = rt.arg(1, &mut word);
    word[0]
}
