// What each moment's tick is given to, which is a history. The trace is told from it, and the finishes from it and the costs. There is no
// code here.
#![tactic(auto)]
