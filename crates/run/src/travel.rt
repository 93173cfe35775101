// A run from event to event, to a moment that it is told, and so to the horizon.
ghost use Rattle.std.specs.Prelude.{◌≤◌, length, ◌≡◌};
ghost use Rattle.books.proofs.Accepted.{Accepted};
ghost use Rattle.books.proofs.Book.{book, job_book, lent_in, segment_book, standing_at};
ghost use Rattle.books.proofs.Stretches.Segmented.{at_rest};
ghost use Rattle.books.proofs.Travel.AtHorizon.{AtHorizon};
ghost use Rattle.books.proofs.Travel.Travels.{MayTravel, Travels};
ghost use Rattle.clock.specs.Clock.{moment};
ghost use Rattle.moments.specs.Moments.{at_moment};
ghost use Rattle.workfile.specs.Work.{work};

use crate::{jobs, reading, serving, spell, starting, stretches, taking, tree};
use books::{JobLines, Standing, Travelled, Turns, WinnerTree};
use clock::{Length, Moment};

// Every job is opened, those of each server are lined up, and the run goes from its start to the horizon, where its last segment ends.
pub(crate) fn travel(file: &[u8], list: &mut [u64], finishes: &mut [u32]) -> Travelled
    requires accepted { Accepted file.now }
    requires file_in_bounds { (work file.now).arrivals ≤ length finishes.old }
    ensures { AtHorizon (work file.now) list.old finishes.old list.new finishes.new result }
{
    let h = workfile::header_of(file);
    let arrivals = h.arrivals.count;
    let horizon = h.horizon;
    jobs::open_all(finishes, arrivals);
    let mut lines = JobLines {
        job: [arrivals; sizes::MOST_SERVERS],
        left: [0; sizes::MOST_SERVERS],
        behind: [0; sizes::MOST_ARRIVALS],
    };
    jobs::line_up(file, &mut lines);
    let mut turns = Turns {
        tree: WinnerTree {
            leaves: tree::leaves_of(h.servers.count),
            keys: [serving::NO_KEY; 128],
        },
        postponed: [0; sizes::MOST_SERVERS],
        interrupted: [0; sizes::MOST_SERVERS],
    };
    let end = to_moment(
        file,
        list,
        finishes,
        horizon,
        from_start(file),
        &mut turns,
        &mut lines,
    );
    let segments = stretches::end_segment(list, end.current, end.moment);
    Travelled {
        segments,
        postponed: turns.postponed,
        interrupted: turns.interrupted,
    }
}

// Where a run stands at its start.
fn from_start(file: &[u8]) -> Standing
    requires { Accepted file.now }
    ensures { result ≡ record { moment = moment 0; taken = 0; dispatcher = at_moment (work file.now) 0; current = at_rest } }
{
    Standing {
        moment: Moment { tick: 0 },
        taken: 0,
        dispatcher: starting::start(file),
        current: stretches::at_rest(),
    }
}

// The run from where it stands on, up to a moment before whose arrivals it ends. Segments go into the list as they end, and finishes as they
// come. The dispatcher stays in this function, and a spell or an arrival is handed one server: handing all of them on at each would take
// longer than all the rest.
fn to_moment(
    file: &[u8],
    list: &mut [u64],
    finishes: &mut [u32],
    until: Moment,
    from: Standing,
    turns: &mut Turns,
    lines: &mut JobLines,
) -> Standing
    requires { MayTravel file.now until.tick (lent_in (work file.now) from.moment.tick from.current list.old finishes.old) (standing_at from) (book turns.old (segment_book list.old from.current) (job_book lines.old finishes.old)) }
    ensures moment_value { result.moment ≡ until }
    ensures travels { Travels (lent_in (work file.now) from.moment.tick from.current list.old finishes.old) (standing_at result) (book turns.new (segment_book list.new result.current) (job_book lines.new finishes.new)) }
{
    let mut d = from.dispatcher;
    let mut c = from.current;
    // The moment, how many arrivals are taken, and how far it goes at most without the next.
    let mut t = from.moment;
    let mut j = from.taken;
    let mut next = reading::next_stop(file, until, j);
    // What the root of the tree holds: kept here, since it would take time to read what has just been stored there.
    let mut root = turns.tree.keys[1];
    // How far a turn goes is told by what happens then, and by no count.
    while t < until {
        let tree = &mut turns.tree;
        while next <= t {
            let a = reading::arrival_of(file, j);
            let i = a.server;
            d.servers[i] = taking::take(tree, i, d.servers[i], d.clock, a.cost);
            j += 1;
            next = reading::next_stop(file, until, j);
            root = tree.keys[1];
        }
        match serving::picked(root) {
            None => {
                c = stretches::idle(list, c, t);
                t = next;
                d.clock = t;
            }
            Some(i) => {
                let rest = jobs::left_of(file, lines, i);
                let room = clock::until(t, next);
                let g = spell::go(list, turns, c, t, i, d.servers[i], rest.min(room));
                c = g.current;
                root = g.root;
                d.servers[i] = g.server;
                t = clock::later(t, g.gone);
                d.clock = t;
                jobs::go_on(finishes, lines, i, g.gone, t);
            }
        }
    }
    Standing {
        moment: t,
        taken: j,
        dispatcher: d,
        current: c,
    }
}
