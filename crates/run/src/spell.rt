// One spell of the server that is picked: how many ticks of its job it runs at once, and for how many whole budgets it then
// goes on, and what that leaves in the books.
ghost use Rattle.std.specs.Prelude.{◌≡◌, ◌+◌};
ghost use Rattle.books.proofs.Book.{segment_book};
ghost use Rattle.books.proofs.Budgets.Budgets.{BudgetsFrom};
ghost use Rattle.books.proofs.Spell.Planned.{MayGo, MayPlan, Planned};
ghost use Rattle.books.proofs.Spell.SpellLeaves.{SpellLeaves, after_spell};
ghost use Rattle.books.proofs.Stretches.Turns.{Bounded};
ghost use Rattle.sizes.specs.Sizes.{clock_end};

use crate::{budgets, serving, stretches, tree};
use books::{Current, Gone, PlannedSpell, Turns, WinnerTree};
use clock::{Length, Moment};
use server::Server;

// Server i goes for a spell from t on, for so long at most.
pub(crate) fn go(
    list: &mut [u64],
    turns: &mut Turns,
    c: Current,
    t: Moment,
    i: usize,
    s: Server,
    most: Length,
) -> Gone
    requires { MayGo t.tick i s most.ticks turns.old (segment_book list.old c) }
    ensures { SpellLeaves t.tick i s most.ticks turns.old turns.new (segment_book list.old c) (segment_book list.new result.current) result }
{
    let p = plan(&turns.tree, i, s, most);
    let current = pass_through(list, c, t, i, s.deadline, p);
    // Only here: the budgets behind the ticks are this server's own, and idle time interrupts nobody.
    stretches::interrupt(&mut turns.interrupted, c, i);
    let root = tree::set_winner(&mut turns.tree, i, p.key);
    turns.postponed[i] += p.postponed;
    Gone {
        server: p.last,
        current,
        gone: p.gone,
        root,
    }
}

// What the spell will be: its ticks and budgets, and the server, its key and its counts after them.
fn plan(tree: &WinnerTree, i: usize, s: Server, most: Length) -> PlannedSpell
    requires { MayPlan tree.now i s most.ticks }
    ensures { Planned tree.now i s most.ticks result }
{
    let ticks = s.remaining.min(most);
    let after = serving::serve(s, ticks);
    let spare = serving::less(most, ticks);
    let budgets = budgets::further(tree, i, after, spare);
    let spent = u64::from(ticks.ticks == s.remaining.ticks);
    // Mostly there are none, and then there is nothing to multiply.
    if budgets == 0 {
        return PlannedSpell {
            ticks,
            after,
            budgets: 0,
            last: after,
            key: serving::key_of(after, i),
            gone: ticks,
            postponed: spent,
        };
    }
    let last = budgets::budgets_on(after, budgets);
    PlannedSpell {
        ticks,
        after,
        budgets,
        last,
        key: serving::key_of(last, i),
        gone: Length {
            ticks: ticks.ticks + budgets * s.budget.ticks,
        },
        postponed: spent + budgets,
    }
}

// The stretches of a spell of server i from t on, and the one that the run is in then.
fn pass_through(
    list: &mut [u64],
    c: Current,
    t: Moment,
    i: usize,
    deadline: Moment,
    p: PlannedSpell,
) -> Current
    requires budgets_from { BudgetsFrom (t.tick + p.ticks.ticks) i p.after p.budgets }
    requires bounded { Bounded clock_end t.tick (segment_book list.old c) }
    ensures { segment_book list.new result ≡ after_spell (segment_book list.old c) t.tick i deadline p }
{
    let PlannedSpell {
        ticks,
        after,
        budgets,
        ..
    } = p;
    let current = Current {
        waits: after.waiting,
        ..stretches::turn_to(list, c, t, i, deadline)
    };
    if budgets == 0 {
        return current;
    }
    budgets::pass(list, current, clock::later(t, ticks), i, after, budgets)
}
