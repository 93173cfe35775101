// How a run from event to event keeps its books, and the laws that join these to the rules' definitions. They stand in `proofs/`, and no
// public promise cites them.
#![tactic(auto)]

use clock::{Length, Moment};
use dispatcher::Dispatcher;
use server::Server;

// The stretch that a run is in: since when, of which server under which deadline, and how many segments ended before it. Where
// nobody runs the server is that of no place, and no Option: as such it goes to `summary::interrupted_by`, which takes two numbers.
#[derive(Clone, Copy)]
pub struct Current {
    pub start: Moment,
    pub server: usize,
    pub deadline: Moment,
    // The work of the server that waits.
    pub waits: Length,
    pub count: usize,
}

// A winner tree over the keys of the servers, with as many leaves as the table needs: with n leaves the keys stand at places n to 2n - 1,
// each place p from 1 to n - 1 holds the lesser of those at 2p and 2p + 1, and place 0 is unused. So place 1 holds the least key, and a
// changed key changes only what stands above it. No ghost field says so: while a key is being changed it does not hold.
#[derive(Drop)]
pub struct WinnerTree {
    // A byte, by which the compiler knows that a place is a small number: with a usize a run of many busy servers took a tenth longer.
    pub leaves: u8,
    pub keys: [u64; 128],
}

// What a run keeps of its turns: the winner tree, and how often each server was postponed and interrupted. (Two lists of counts, here and in
// `Travelled`, as `records::of_run` takes them.)
#[derive(Drop)]
pub struct Turns {
    pub tree: WinnerTree,
    pub postponed: [u64; sizes::MOST_SERVERS],
    pub interrupted: [u64; sizes::MOST_SERVERS],
}

// What a run keeps of its jobs, in fixed memory: which of them each server serves, what is left of that one, and the job behind each. Where there is none
// it is the count of all arrivals, and no Option: only a server that has a job is asked for it, so that nobody asks whether there is one.
#[derive(Drop)]
pub struct JobLines {
    pub job: [usize; sizes::MOST_SERVERS],
    pub left: [u64; sizes::MOST_SERVERS],
    pub behind: [usize; sizes::MOST_ARRIVALS],
}

// Where a run stands between two events: the moment, how many arrivals are taken, the dispatcher, and the stretch that it is in.
#[derive(Clone, Copy)]
pub struct Standing {
    pub moment: Moment,
    pub taken: usize,
    pub dispatcher: Dispatcher,
    pub current: Current,
}

// A spell of the server that is picked, as it is planned.
#[derive(Clone, Copy)]
pub struct PlannedSpell {
    pub ticks: Length,
    // The server after these ticks.
    pub after: Server,
    pub budgets: u64,
    // And after the budgets, with its key.
    pub last: Server,
    pub key: u64,
    // How long it takes in all, and how often the server is postponed.
    pub gone: Length,
    pub postponed: u64,
}

// What a spell leaves beside the books: the server, the stretch that the run is in then, how long it took, and what the root of the tree holds.
#[derive(Clone, Copy)]
pub struct Gone {
    pub server: Server,
    pub current: Current,
    pub gone: Length,
    pub root: u64,
}

// What a run leaves at the horizon beside its lists: how many segments there are, and two counts for each server.
#[derive(Clone, Copy)]
pub struct Travelled {
    pub segments: usize,
    pub postponed: [u64; sizes::MOST_SERVERS],
    pub interrupted: [u64; sizes::MOST_SERVERS],
}
