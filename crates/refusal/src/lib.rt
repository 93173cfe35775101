// The refusals of the rules by number and place. An answer that may be one of them is a `Result`.
#![tactic(auto)]

ghost use Rattle.std.specs.Prelude.{◌≡◌};
ghost use Rattle.refusal.specs.Refusals.{number_of, place_of};

// What was wrong. `specs/Refusals.antt` gives each its number and its place.
#[derive(Clone, Copy, PartialEq, Eq, Debug)]
pub enum Refusal {
    // The file is too short or too long.
    FileLength,
    // A size is out of range, or a list's count of numbers does not fit.
    Sizes,
    // An offset breaks the layout of the file.
    Layout,
    // This server of the table is faulty.
    FaultyServer(usize),
    // The shares add up to more than the frame.
    Shares,
    // This arrival names no server, or a cost out of range.
    FaultyArrival(usize),
    // This arrival's moment is before that of the one listed before it.
    BackwardArrival(usize),
    // This arrival's moment is the horizon or later.
    LateArrival(usize),
    // The finish list has too few places.
    FinishList,
    // The clock stands at its end.
    ClockEnd,
    // The server's waiting work would grow too large.
    WaitingWork,
}

// The refusal's number in the document's table.
pub fn number(r: Refusal) -> u64
    ensures { result ≡ number_of r }
{
    match r {
        Refusal::FileLength => 1,
        Refusal::Sizes => 2,
        Refusal::Layout => 3,
        Refusal::FaultyServer(_) => 4,
        Refusal::Shares => 5,
        Refusal::FaultyArrival(_) => 6,
        Refusal::BackwardArrival(_) => 7,
        Refusal::LateArrival(_) => 8,
        Refusal::FinishList => 9,
        Refusal::ClockEnd => 10,
        Refusal::WaitingWork => 11,
    }
}

// The refusal's place, 0 where the table names no other.
pub fn place(r: Refusal) -> usize
    ensures { result ≡ place_of r }
{
    match r {
        Refusal::FaultyServer(k)
        | Refusal::FaultyArrival(k)
        | Refusal::BackwardArrival(k)
        | Refusal::LateArrival(k) => k,
        _ => 0,
    }
}
