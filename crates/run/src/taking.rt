// An arrival is taken by its server.
ghost use Rattle.std.specs.Prelude.{◌≡◌};
ghost use Rattle.books.proofs.Travel.ArrivalTaken.{MayTake};
ghost use Rattle.books.proofs.Tree.Keys.{key_of};
ghost use Rattle.books.proofs.Tree.Winners.{Set};
ghost use Rattle.server.specs.Moves.{arrived};

use crate::{serving, tree};
use books::WinnerTree;
use clock::{Length, Moment};
use server::Server;

// Server i with the work of an arrival at t, its key set.
pub(crate) fn take(tree: &mut WinnerTree, i: usize, s: Server, t: Moment, cost: Length) -> Server
    requires { MayTake tree.old i s t cost }
    ensures value { result ≡ arrived s t cost }
    ensures set { Set tree.old tree.new i (key_of result i) }
{
    let taken = steps::take(s, t, cost);
    tree::set_key(tree, i, serving::key_of(taken, i));
    taken
}
