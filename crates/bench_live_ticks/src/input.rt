// Standard input, read into a lent room.
ghost use Rattle.std.specs.Counts.{IsPrefixLen};

use std::io::Read;

// Reads until the room is full, the input ends or a read fails, and answers how many bytes it put at the start of the room.
pub(crate) fn read_full<R: Read>(input: &mut R, room: &mut [u8]) -> usize
    ensures { IsPrefixLen result room.new }
{
    // A `while`: `read_exact` tells no count where the input ends first, nor `io::copy` where a read fails. It stands in three programs, since a
    // crate of it would have a public function with no law of one outcome.
    let mut done = 0;
    while done < room.len() {
        match input.read(&mut room[done..]) {
            Ok(0) | Err(_) => break,
            Ok(n) => done += n,
        }
    }
    done
}
