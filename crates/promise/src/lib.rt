// What it is for a promise to allow one outcome, and to ask nothing of the caller. It stands in `specs/`; there is no code here. Each
// crate's `proofs/Promises.antt` shows both of the promise of each of its public functions; only the live moves ask something, ranges.
#![tactic(auto)]
