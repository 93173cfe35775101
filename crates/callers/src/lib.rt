// What demand 3 comes to for callers: of `run`, by the trace of a file and by the lists that the run leaves, and of an opening and the live
// moves. The statements are `specs/Traces.antt` and `specs/Live.antt`. There is no code here.
#![tactic(auto)]
