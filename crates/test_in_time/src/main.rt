// A caller that relies on demand 3: it plays and runs File P of the rules, and takes the end of each tick and segment from its deadline, and
// what a server got from its bandwidth, with no test before either. What a server got it counts from a moment at which that had no work
// waiting: tick by tick as the lent moves answer, and segment by segment as the trace list has them, where the finish list tells that no
// work was waiting. What it writes is held to the file `stdout`.
#![tactic(auto)]

mod bandwidth;
mod lent;
mod lists;
mod live;
mod say;
mod traced;

fn main(rt: HostRuntime) {
    live::file_p(&rt);
    traced::file_p(&rt);
}
