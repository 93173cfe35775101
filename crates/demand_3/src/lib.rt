// Demand 3, the bandwidth of a server and its deadlines ahead, proved of every admitted table, whatever arrives. The statement is
// `specs/Demand3.antt`; what it comes to for the run of an accepted file, moment by moment, is in `specs/Files.antt`. There is no code here.
#![tactic(auto)]
