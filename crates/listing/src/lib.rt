// The records of a work file by number: booking k and arrival k of any bytes under any header. At which byte a record starts, and how far the
// records of a kind go, is told here alone.
#![tactic(auto)]

ghost use Rattle.std.specs.Prelude.{◌≡◌, ◌+◌, ◌*◌, ltb};
ghost use Rattle.booking.specs.Sheet.{sheet_of};
ghost use Rattle.sizes.specs.Sizes.{arrival_bytes, server_bytes};
ghost use Rattle.workfile.specs.Work.{work_under};

use arrival::Arrival;
use booking::{Booking, Sheet};
use std::array;
use workfile::{Block, Header, Record};

// The booking of server k. Where its record lies behind the end every number counts 0. (It and `arrival_of` stay two, thin over `nth`, since
// their contracts say what kind stands in which block; and a file and a header stay two parameters: this is promised of any header.)
pub fn booking_of(file: &[u8], h: Header, k: usize) -> Booking
    ensures { result ≡ (work_under h file.now).table.booking k }
{
    nth(file, h.servers, k)
}

// Arrival k, likewise.
pub fn arrival_of(file: &[u8], h: Header, k: usize) -> Arrival
    ensures { result ≡ (work_under h file.now).arrival k }
{
    nth(file, h.arrivals, k)
}

// The booking sheet of the table: its first 64 bookings.
pub fn sheet_of(file: &[u8], h: Header) -> Sheet
    ensures { result ≡ sheet_of h.frame (work_under h file.now).table }
{
    Sheet {
        frame: h.frame,
        count: h.servers.count,
        bookings: array::from_fn(|k| booking_of(file, h, k)),
    }
}

// Whether the server records go on beyond byte `at`. (This and the next stay two likewise.)
pub fn bookings_beyond(h: Header, at: usize) -> bool
    ensures { result ≡ ltb at (h.servers.offset + server_bytes * h.servers.count) }
{
    is_beyond::<Booking>(h.servers, at)
}

// Whether the arrivals do.
pub fn arrivals_beyond(h: Header, at: usize) -> bool
    ensures { result ≡ ltb at (h.arrivals.offset + arrival_bytes * h.arrivals.count) }
{
    is_beyond::<Arrival>(h.arrivals, at)
}

// Record k of a block. Where 64 bits do not hold the bytes before it, their last number lies behind the end too.
fn nth<R: Record>(file: &[u8], block: Block, k: usize) -> R
    ensures { result ≡ R.read file.now (block.offset + R.BYTES * k) }
{
    reader::record_from(file, block.offset, R::BYTES.saturating_mul(k))
}

// Whether the records of a block go on beyond byte `at`. Divided and not multiplied, so that 64 bits hold every number.
fn is_beyond<R: Record>(block: Block, at: usize) -> bool
    ensures { result ≡ ltb at (block.offset + R.BYTES * block.count) }
{
    at < block.offset || (at - block.offset) / R::BYTES < block.count
}
