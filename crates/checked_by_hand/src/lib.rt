// The worked examples of the rules, proved of the definitions as one list. The list and its one statement stand in `specs/ByHand.antt`,
// the proof in `proofs/`; there is no code here.
#![tactic(auto)]
