// What ticks have come to, a number to a line: how many ran, postponed and idled, and then c, d and w of each server. A line that
// cannot be written is missing from the output.
ghost use Rattle.dispatcher.specs.Within.{Within};

use crate::tally::Tallied;

pub(crate) fn all(rt: &impl Print, t: Tallied)
    requires { Within t.dispatcher }
{
    let d = t.dispatcher;
    let _ = println!(rt; "{}\n{}\n{}", t.tally.ran, t.tally.postponed, t.tally.idle);
    for s in &d.servers[..d.count] {
        let _ = println!(rt;
            "{}\n{}\n{}",
            s.remaining.ticks, s.deadline.tick, s.waiting.ticks
        );
    }
}
