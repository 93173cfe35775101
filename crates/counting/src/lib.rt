// Counting below a bound: the first number that passes a test, how many do and whether all do, the sum of a function and the list of its
// values; and the total and the longest of a list. The definitions stand in `specs/`, their laws in `proofs/`; there is no code here.
#![tactic(auto)]
