// The numbers of a work file, read where they lie: a lent slice of bytes and a place in it, and nothing copied.
#![tactic(auto)]

ghost use Rattle.std.specs.Prelude.{◌≡◌};
ghost use Rattle.numbers.specs.Word.{number_at};

// The number that starts at a byte of the file, low byte first; bytes behind the end count 0.
pub fn word_at(file: &[u8], at: usize) -> u32
    ensures { result ≡ number_at file.now at }
{
    let Some(rest) = file.get(at..) else {
        return 0;
    };
    // Asked first and alone, as nearly every number lies in the file whole: among the others it took twice as long to read.
    if let [a, b, c, d, ..] = rest {
        return u32::from_le_bytes([*a, *b, *c, *d]);
    }
    match rest {
        [a, b, c, ..] => u32::from_le_bytes([*a, *b, *c, 0]),
        [a, b] => u32::from_le_bytes([*a, *b, 0, 0]),
        [a] => u32::from(*a),
        [] => 0,
    }
}
