// A case of the script is the numbers T F L W and W words: a trace list of T places that hold 7, a finish list of F places that hold 9,
// and a file of L bytes, which begins with the words, low byte first, and has 170 behind them.
ghost use Rattle.std.specs.Prelude.{◌<◌, length, IfSome};

use crate::fault::Fault;
use crate::say;

// The limits of T, F, L and W.
const MOST_PLACES: usize = 64;

const MOST_FINISHES: usize = 4100;

const MOST_LENGTH: usize = 65600;

const MOST_WORDS: usize = 16400;

#[derive(Clone, Copy)]
pub(crate) struct Case<'a> {
    places: usize,
    finishes: usize,
    length: usize,
    words: &'a [u32],
}

// The case at the front of the numbers, and the numbers behind it: none where its numbers are not all there.
pub(crate) fn first(numbers: &[u32]) -> Option<(Case<'_>, &[u32])>
    ensures { IfSome result (λ r. length r.1.now < length numbers.now) }
{
    let (&[t, f, l, w], behind) = numbers.split_first_chunk::<4>()?;
    // By `as`, since there is no `From` from a u32 to a usize.
    let (words, behind) = behind.split_at_checked(w as usize)?;
    let case = Case {
        places: t as usize,
        finishes: f as usize,
        length: l as usize,
        words,
    };
    Some((case, behind))
}

// Runs a case whose numbers are within their limits, and writes what it gives.
pub(crate) fn play(rt: &impl Print, case: Case<'_>) -> Result<(), Fault> {
    if case.words.len() > MOST_WORDS {
        return Err(Fault::AboveLimit);
    }
    let mut file = [170; MOST_LENGTH];
    let mut trace = [7; MOST_PLACES];
    let mut finishes = [9; MOST_FINISHES];
    let file = file.get_mut(..case.length).ok_or(Fault::AboveLimit)?;
    let trace = trace.get_mut(..case.places).ok_or(Fault::AboveLimit)?;
    let finishes = finishes.get_mut(..case.finishes).ok_or(Fault::AboveLimit)?;
    lay(file, case.words);
    let ran = run::run(file, trace, finishes);
    say::verdict(rt, ran.verdict);
    say::segments(rt, ran.segments);
    say::list(rt, "trace", trace);
    say::list(rt, "finishes", finishes);
    say::servers(rt, &ran.summaries);
    Ok(())
}

// Lays the words over the start of the file.
fn lay(file: &mut [u8], words: &[u32]) {
    let bytes = words.iter().flat_map(|w| w.to_le_bytes());
    for (place, byte) in file.iter_mut().zip(bytes) {
        *place = byte;
    }
}
