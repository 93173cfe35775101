// Runs the work files of a script beside lists of any length, and writes what each run gives. What it writes is held to the file `stdout`.
#![tactic(auto)]

mod case;
mod fault;
mod input;
mod say;
mod script;

use fault::Fault;

// A script is shorter.
const MOST_BYTES: usize = 131072;

// A shorter script has no more: another byte lies between two numbers.
const MOST_NUMBERS: usize = 65536;

fn main(rt: HostRuntime) {
    let mut text = [0; MOST_BYTES];
    let length = input::read_full(&mut rt.reader(), &mut text);
    let mut numbers = [0; MOST_NUMBERS];
    if let Err(fault) = play(&rt, &text[..length], &mut numbers) {
        let _ = println!(rt; "{fault}");
    }
}

// Plays the cases of a script in turn, up to one that does not keep to the format.
fn play(rt: &impl Print, text: &[u8], room: &mut [u32]) -> Result<(), Fault> {
    if text.len() == MOST_BYTES {
        return Err(Fault::LongScript);
    }
    let count = script::numbers(text, room)?;
    let mut left = &room[..count];
    while !left.is_empty() {
        let (next, behind) = case::first(left).ok_or(Fault::CutShort)?;
        case::play(rt, next)?;
        left = behind;
    }
    Ok(())
}
