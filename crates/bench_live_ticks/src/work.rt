// A work file as a dispatcher to tick: its table, the arrivals of moment 0, and its horizon.
ghost use Rattle.dispatcher.specs.Within.{Within};
ghost use Rattle.std.specs.Counts.{IsPrefixLen};

use dispatcher::Dispatcher;
use workfile::Header;

// A list of Q, T pairs as long as the longest table.
const NUMBERS: usize = 2 * sizes::MOST_SERVERS;

// As many ticks as the file has moments.
pub(crate) fn horizon(file: &[u8]) -> u64 {
    let h = workfile::header_of(file);
    h.horizon.tick
}

// The dispatcher of the file's table with the work that arrives at moment 0. That of a table that is refused has no servers.
pub(crate) fn start(file: &[u8]) -> Dispatcher
    ensures { Within result }
{
    let h = workfile::header_of(file);
    let mut table = [0; NUMBERS];
    let numbers = lay(&mut table, file, h);
    let opened = opening::open_table(&table[..numbers], h.frame);
    take_arrivals(opened.dispatcher, file, h)
}

// The numbers of the server records in turn. Answers how many they are: where the list is too short it lays none.
fn lay(table: &mut [u64], file: &[u8], h: Header) -> usize
    ensures { IsPrefixLen result table.new }
{
    let count = h.servers.count;
    if table.len() / 2 < count {
        return 0;
    }
    for (k, pair) in table.chunks_exact_mut(2).take(count).enumerate() {
        let b = listing::booking_of(file, h, k);
        pair[0] = b.budget.ticks;
        pair[1] = b.period.ticks;
    }
    2 * count
}

// The dispatcher when the arrivals of moment 0 are taken, and as it was where they are more than a file may have.
fn take_arrivals(mut d: Dispatcher, file: &[u8], h: Header) -> Dispatcher
    requires { Within d }
    ensures { Within result }
{
    let count = h.arrivals.count;
    if sizes::MOST_ARRIVALS < count {
        return d;
    }
    for k in 0..count {
        let a = listing::arrival_of(file, h, k);
        if a.moment.tick == 0 {
            let taken = dispatcher::arrival(d, a.server, a.cost);
            d = taken.dispatcher;
        }
    }
    d
}
