// Text on a page, which is a lent buffer: bytes and numbers in decimal, added one behind the other. What does not fit is left out, and no
// place is touched but those that the added bytes take. `write!` is no form of it: what it writes is told only where all of it fits.
#![tactic(auto)]

ghost use Rattle.std.specs.Prelude.{◌%◌, ◌++◌, ◌≡◌, ◌∷◌, []};
ghost use Rattle.text.specs.Line.{decimal, digit};
ghost use Rattle.page.specs.Page.{Added};

use page::Page;

// Adds bytes, as many as fit. (By their places, of which the edit `first_byte_left_out` leaves out the first: a loop over the bytes
// themselves could leave it out only by another list, and then its proof would fail whatever that is.)
pub fn add(text: &mut Page<'_, u8>, bytes: &[u8])
    ensures { Added bytes.now text.old text.new }
{
    for k in 0..bytes.len() {
        add_byte(text, bytes[k]);
    }
}

// Adds one byte of words or of digits, where there is room.
fn add_byte(text: &mut Page<'_, u8>, byte: u8)
    ensures { Added (byte ∷ []) text.old text.new }
{
    text.add(byte);
}

// Adds a number in decimal, as many digits as fit. A call adds the last two digits behind a hundredth of the number: that is quicker than
// a call for each digit.
pub fn add_number(text: &mut Page<'_, u8>, n: u64)
    ensures { Added (decimal n) text.old text.new }
{
    if n < 10 {
        return add_byte(text, last_digit(n));
    }
    let tenth = n / 10;
    if 10 <= tenth {
        add_number(text, tenth / 10);
    }
    add_byte(text, last_digit(tenth));
    add_byte(text, last_digit(n));
}

// The last digit of a number, as a byte. (By `as`: the digit fits, which `try_from` would test again.)
fn last_digit(n: u64) -> u8
    ensures { result ≡ digit (n % 10) }
{
    b'0' + (n % 10) as u8
}

// Adds words and a number behind them.
pub fn add_numbered(text: &mut Page<'_, u8>, words: &[u8], n: u64)
    ensures { Added (words.now ++ decimal n) text.old text.new }
{
    add(text, words);
    add_number(text, n);
}
