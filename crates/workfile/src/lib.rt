// A work file: where its header and its records lie, and the work that they hold. Nothing is copied from the lent bytes but the numbers
// that are read.
#![tactic(auto)]

ghost use Rattle.std.specs.Prelude.{◌≡◌, ◌+◌, ◌≤◌, ℕ, List, length, min};
ghost use Rattle.std.proofs.Common.{arith, lit≤};
ghost use Rattle.booking.specs.Share.{booked};
ghost use Rattle.clock.specs.Clock.{moment, ticks};
ghost use Rattle.numbers.proofs.WordLaws.{word_behind};
ghost use Rattle.numbers.specs.Word.{number_at};
ghost use Rattle.sizes.specs.Sizes.{arrival_bytes, server_bytes};
ghost use Rattle.workfile.specs.Layout.{header, booking_at, arrival_at};

use arrival::Arrival;
use booking::Booking;
use clock::{Length, Moment};
use numbers::word_at;

// How many records there are, and the byte at which the first of them starts.
#[derive(Clone, Copy)]
pub struct Block {
    pub count: usize,
    pub offset: usize,
}

#[derive(Clone, Copy)]
pub struct Header {
    // H
    pub frame: Length,
    // N
    pub horizon: Moment,
    pub servers: Block,
    pub arrivals: Block,
}

// The header of a file. Of one that is shorter than a header, what is missing counts 0.
#[tactic(auto, unfolding(crate::specs::Layout::header))]
pub fn header_of(file: &[u8]) -> Header
    ensures { result ≡ header file.now }
{
    let frame = u64::from(word_at(file, 0));
    let horizon = u64::from(word_at(file, 4));
    // A widening by `as`, here and below, has no other form: `usize` is made `From` 16 bits at most.
    let servers = word_at(file, 8) as usize;
    let servers_from = word_at(file, 12) as usize;
    let arrivals = word_at(file, 16) as usize;
    let arrivals_from = word_at(file, 20) as usize;
    Header {
        frame: Length { ticks: frame },
        horizon: Moment { tick: horizon },
        servers: Block {
            count: servers,
            offset: servers_from,
        },
        arrivals: Block {
            count: arrivals,
            offset: arrivals_from,
        },
    }
}

// A kind of record: how many bytes each has, and what one says that starts at a byte of a file.
pub trait Record: Copy {
    const BYTES: usize;

    ghost BYTES: { ℕ };

    ghost read: { List ℕ → ℕ → Self };

    ghost zeros: { Self };

    // The record that starts at a byte of the file. Behind the end all counts 0.
    fn at(file: &[u8], at: usize) -> Self
        ensures { result ≡ read file.now at };

    ghost some_bytes: { 1 ≤ BYTES };

    ghost behind: { (file : List ℕ) (at : ℕ) → length file ≤ at → read file at ≡ zeros };
}

// A server record.
impl Record for Booking {
    const BYTES: usize = sizes::SERVER_BYTES;

    ghost BYTES = { server_bytes };

    ghost read = { booking_at };

    ghost zeros = { booked 0 0 };

    #[tactic(auto, unfolding(crate::specs::Layout::booking_at))]
    fn at(file: &[u8], at: usize) -> Booking {
        let budget = u64::from(word_at(file, at));
        let period = u64::from(word_further(file, at, 4));
        Booking {
            budget: Length { ticks: budget },
            period: Length { ticks: period },
        }
    }

    ghost some_bytes = { lit≤ tt };

    ghost behind = { λ file at h. unfold booking_at in Prim.rw (word_behind file at h, word_behind file (at + 4) (Prim.omega arith)) };
}

// An arrival record.
impl Record for Arrival {
    const BYTES: usize = sizes::ARRIVAL_BYTES;

    ghost BYTES = { arrival_bytes };

    ghost read = { arrival_at };

    ghost zeros = { record { moment = moment 0; server = 0; cost = ticks 0 } };

    #[tactic(auto, unfolding(crate::specs::Layout::arrival_at))]
    fn at(file: &[u8], at: usize) -> Arrival {
        let moment = u64::from(word_at(file, at));
        let server = word_further(file, at, 4) as usize;
        let cost = u64::from(word_further(file, at, 8));
        Arrival {
            moment: Moment { tick: moment },
            server,
            cost: Length { ticks: cost },
        }
    }

    ghost some_bytes = { lit≤ tt };

    ghost behind = { λ file at h. unfold arrival_at in
        Prim.rw (word_behind file at h, word_behind file (at + 4) (Prim.omega arith), word_behind file (at + 8) (Prim.omega arith)) };
}

// The number so many bytes behind a byte of the file. What 64 bits do not hold lies behind the end, as their last number does.
fn word_further(file: &[u8], at: usize, further: usize) -> u32
    ensures { result ≡ number_at file.now (at + further) }
{
    word_at(file, at.saturating_add(further))
}
