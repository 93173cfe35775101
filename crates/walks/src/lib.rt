// What it is for the clauses of a function that is lent a struct, or a struct with a reference, to allow one outcome and to ask nothing, in
// every model of the logic; and steps that proofs by hand, called walks, take. There is no code here.
#![tactic(auto)]
