// What is left to the deadlines and of the bandwidth, as lines of text. A line that cannot be written is missing from the output.
use crate::bandwidth::Window;
use clock::{Length, Moment};

// A tick that a server got in the live play.
pub(crate) fn tick(rt: &impl Print, server: usize, deadline: Moment, left: Length) {
    let _ = print!(rt; "live: ");
    under(rt, server, deadline, left);
}

// A segment of the run's trace, by its number.
pub(crate) fn segment(rt: &impl Print, k: usize, server: usize, deadline: Moment, left: Length) {
    let _ = print!(rt; "run: segment {k} of ");
    under(rt, server, deadline, left);
}

// The rest of a line, the same for both.
fn under(rt: &impl Print, server: usize, deadline: Moment, left: Length) {
    let _ = println!(rt;
        "server {server} under {}, {} left",
        deadline.tick, left.ticks
    );
}

// What a server got in a window, and what that leaves of its bandwidth.
pub(crate) fn bandwidth(rt: &impl Print, form: &str, w: Window, got: u64, whole: u64, left: u64) {
    let (server, from, to) = (w.server, w.from.tick, w.to.tick);
    let _ = println!(rt;
        "{form}: server {server} got {got} from {from} on under deadlines up to {to}, {left} of {whole} left"
    );
}
