// The run of a work tick by tick, by the dispatcher's own moves; and the laws by which many ticks are one step. There is no code here.
#![tactic(auto)]
