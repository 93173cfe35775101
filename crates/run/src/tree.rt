// Keys are set in the winner tree, and the least of some are told. These are functions and no methods: a method would be a public
// function of `books`, and the edit `old_key_left_above` of this crate could not spoil it. What each may ask of the tree stands in its contract
// and in no ghost field, as it does not hold while a key is being changed.
ghost use Rattle.std.specs.Prelude.{◌≡◌, ◌+◌, ◌<◌};
ghost use Rattle.books.proofs.Tree.Climb.{Climb, Climbed, Climbs};
ghost use Rattle.books.proofs.Tree.Winners.{Beside, Leaf, Rival, Set, leaves_for, root_of};

use books::WinnerTree;

// Sets the key of server i, and what stands above it up to the root.
pub(crate) fn set_key(tree: &mut WinnerTree, i: usize, key: u64)
    requires { Leaf tree.old i }
    ensures { Set tree.old tree.new i key }
{
    let at = leaf_of(tree, i);
    tree.keys[at] = key;
    let _root = climb_up(tree, at, key);
}

// The same for a server that has run, and what the root holds then. It had the least key of all, so that all of what stands above it changes. A
// climb of a fixed number of turns is compiled as so many turns in a row, one until the root is reached is not; with more of the first
// kind than these two the function becomes so long that it is slower for every table.
pub(crate) fn set_winner(tree: &mut WinnerTree, i: usize, key: u64) -> u64
    requires { Leaf tree.old i }
    ensures value { result ≡ root_of tree.new }
    ensures set { Set tree.old tree.new i key }
{
    let at = leaf_of(tree, i);
    tree.keys[at] = key;
    match tree.leaves {
        64 => climb(tree, at, key, 6),
        16 => climb(tree, at, key, 4),
        _ => climb_up(tree, at, key),
    }
}

// What stands above a place with a new key, so many turns up to the root, and what that holds then.
fn climb(tree: &mut WinnerTree, from: usize, key: u64, turns: usize) -> u64
    requires { Climbs tree.old from key turns }
    ensures { Climbed tree.old tree.new result }
{
    let mut at = from;
    let mut least = key;
    for _ in 0..turns {
        let up = at / 2;
        least = least.min(tree.keys[sibling(at)]);
        tree.keys[up] = least;
        at = up;
    }
    least
}

// The same, until the root is reached.
fn climb_up(tree: &mut WinnerTree, from: usize, key: u64) -> u64
    requires { Climb tree.old tree.old from key }
    ensures { Climbed tree.old tree.new result }
{
    let mut at = from;
    let mut least = key;
    // A `while`, here and in `rival`: the place is halved at each turn.
    while at > 1 {
        let above = at / 2;
        least = least.min(tree.keys[sibling(at)]);
        tree.keys[above] = least;
        at = above;
    }
    least
}

// The least key of the others: what the root would hold if server i had the key of the server beside it.
pub(crate) fn rival(tree: &WinnerTree, i: usize) -> u64
    requires { Leaf tree.now i }
    ensures { Rival tree.now i result }
{
    let leaf = leaf_of(tree, i);
    let mut least = tree.keys[sibling(leaf)];
    let mut at = leaf / 2;
    while at > 1 {
        least = least.min(tree.keys[sibling(at)]);
        at /= 2;
    }
    least
}

// The place of the key of server i.
fn leaf_of(tree: &WinnerTree, i: usize) -> usize
    requires { Leaf tree.now i }
    ensures { result ≡ tree.now.leaves + i }
{
    usize::from(tree.leaves) + i
}

// As many leaves as so many servers need: each leaf more than that would make every climb longer.
pub(crate) fn leaves_of(count: usize) -> u8
    ensures { result ≡ leaves_for count }
{
    count.min(sizes::MOST_SERVERS).next_power_of_two().max(2) as u8
}

// The place of the half of the servers that server i is not of.
pub(crate) fn other_half(tree: &WinnerTree, i: usize) -> usize
    ensures { result < 128 }
{
    if i < usize::from(tree.leaves) / 2 {
        3
    } else {
        2
    }
}

// The other place under the place above `at`.
fn sibling(at: usize) -> usize
    requires { at < 128 }
    ensures { Beside at result }
{
    4 * (at / 2) + 1 - at
}
