// When each job of a work finishes, and the finish list; and the laws by which a finish is known as soon as it comes. There is no code
// here.
#![tactic(auto)]
