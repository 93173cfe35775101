// The numbers of a script: decimal, with blanks and line ends between them, and comments from `#` to the end of the line.
ghost use Rattle.std.specs.Prelude.{IfOk};
ghost use Rattle.std.specs.Counts.{IsPrefixLen};

use crate::fault::Fault;
use page::Page;

// What the bytes read so far end in.
#[derive(Clone, Copy)]
enum Reading {
    Between,
    // Digits, and what they come to so far.
    Number(u32),
    Comment,
}

// Puts the numbers of a script into the list in turn, as many as it has places, and answers how many it then has.
pub(crate) fn numbers(text: &[u8], list: &mut [u32]) -> Result<usize, Fault>
    ensures { IfOk result (λ n. IsPrefixLen n list.new) }
{
    let mut numbers = Page { list, next: 0 };
    let mut reading = Reading::Between;
    for &byte in text.iter().chain(b"\n") {
        let next = step(reading, byte)?;
        if let (Reading::Number(n), Reading::Between | Reading::Comment) = (reading, next) {
            numbers.add(n);
        }
        reading = next;
    }
    Ok(numbers.next)
}

// One byte more.
fn step(reading: Reading, byte: u8) -> Result<Reading, Fault> {
    let next = match (reading, byte) {
        (_, b'\n') => Reading::Between,
        (Reading::Comment, _) => Reading::Comment,
        (_, b' ') => Reading::Between,
        (_, b'#') => Reading::Comment,
        (Reading::Number(n), _) => Reading::Number(with_digit(n, byte)?),
        (Reading::Between, _) => Reading::Number(with_digit(0, byte)?),
    };
    Ok(next)
}

// A number with one digit more. There is none where the byte is no digit, or 32 bits do not hold it.
fn with_digit(n: u32, byte: u8) -> Result<u32, Fault> {
    let digit = char::from(byte).to_digit(10).ok_or(Fault::OddScript)?;
    let tens = n.checked_mul(10).ok_or(Fault::OddScript)?;
    tens.checked_add(digit).ok_or(Fault::OddScript)
}
