// A live loop: it plays lists of live moves twice, on one dispatcher that is kept and lent to each move, and by value, and writes every
// answer. The two blocks of a list are the same. The lists are File P of the rules, waking, and the refusals of an arrival and of a tick;
// tables that are only opened show the refusals of a live table. What it writes is held to the file `stdout`.
#![tactic(auto)]

mod form;
mod play;
mod say;
mod script;

use clock::Length;
use form::{ByValue, Lent};
use play::play;
use script::{Often, arrivals, ticks};

fn main(rt: HostRuntime) {
    file_p(&rt);
    waking(&rt);
    frames(&rt);
    odd_lists(&rt);
    faulty_servers(&rt);
    shares(&rt);
    longest_frame(&rt);
    many_servers(&rt);
    faulty_arrivals(&rt);
    after_a_refusal(&rt);
    full_server(&rt);
    clock_end(&rt);
}

// Opens the table, and plays the list from its dispatcher on in both ways, writing what the dispatcher then is.
fn both(rt: &impl Print, table: &[u64], frame: u64, list: &[Often]) {
    let opened = opening::open_table(table, Length { ticks: frame });
    let answer = opened.answer;
    let start = opened.dispatcher;
    say::opening(rt, frame, table.len(), answer);
    say::line(rt, "lent:");
    say::servers(rt, play::<Lent>(rt, start, list));
    say::line(rt, "by value:");
    say::servers(rt, play::<ByValue>(rt, start, list));
}

// Opens the table, and writes its dispatcher.
fn opened(rt: &impl Print, table: &[u64], frame: u64) {
    let opened = opening::open_table(table, Length { ticks: frame });
    let answer = opened.answer;
    say::opening(rt, frame, table.len(), answer);
    say::servers(rt, opened.dispatcher);
}

// File P: H 10, N 12, servers (2, 5) and (3, 5), arrivals (0, 0, 5), (0, 1, 3), (6, 1, 2).
fn file_p(rt: &impl Print) {
    say::line(rt, "File P");
    let moves = [
        arrivals(0, 5, 1),
        arrivals(1, 3, 1),
        ticks(6),
        arrivals(1, 2, 1),
        ticks(6),
    ];
    both(rt, &[2, 5, 3, 5], 10, &moves);
}

// Server (2, 6) with c 1 and d 6 keeps them at 2, as 6 < 8, renews at 3, as 6 = 6, and renews when its deadline has passed.
fn waking(rt: &impl Print) {
    say::line(rt, "waking early");
    both(
        rt,
        &[2, 6],
        6,
        &[arrivals(0, 1, 1), ticks(2), arrivals(0, 1, 1)],
    );
    say::line(rt, "waking at equality");
    both(
        rt,
        &[2, 6],
        6,
        &[arrivals(0, 1, 1), ticks(3), arrivals(0, 1, 1)],
    );
    say::line(rt, "waking late");
    both(
        rt,
        &[2, 6],
        6,
        &[arrivals(0, 1, 1), ticks(9), arrivals(0, 1, 1)],
    );
}

// 2 for the frame, at its edges.
fn frames(rt: &impl Print) {
    say::line(rt, "tables with no server");
    opened(rt, &[], 1);
    opened(rt, &[], 604800);
    opened(rt, &[], 0);
    opened(rt, &[], 604801);
    opened(rt, &[], u64::MAX);
}

// 2 for the count of numbers.
fn odd_lists(rt: &impl Print) {
    say::line(rt, "an odd count of numbers");
    opened(rt, &[1], 1);
    opened(rt, &[1, 1, 1], 1);
}

// 4 for each fault, and at a place other than 0.
fn faulty_servers(rt: &impl Print) {
    say::line(rt, "a faulty server");
    opened(rt, &[1, 0], 20);
    opened(rt, &[1, 3], 20);
    opened(rt, &[0, 4], 20);
    opened(rt, &[5, 4], 20);
    opened(rt, &[1, 4, 1, 4, 1, 40], 20);
}

// 5 at its edge, and 4 before it.
fn shares(rt: &impl Print) {
    say::line(rt, "shares of 20 and of 21");
    opened(rt, &[1, 4, 3, 10, 9, 20], 20);
    opened(rt, &[1, 4, 3, 10, 10, 20], 20);
    say::line(rt, "a faulty server behind shares that are too large");
    opened(rt, &[20, 20, 20, 20, 0, 20], 20);
    say::line(rt, "the largest numbers");
    opened(rt, &[u64::MAX, u64::MAX], 20);
}

// 5 at its edge with the longest frame: full, and a tick over at the first, the middle and the last server; 4 behind an overrun.
fn longest_frame(rt: &impl Print) {
    say::line(
        rt,
        "H 604800: full, and a tick over at the first, the middle and the last server",
    );
    opened(rt, &[201600, 604800, 201600, 604800, 1, 3], 604800);
    opened(rt, &[201601, 604800, 201600, 604800, 1, 3], 604800);
    opened(rt, &[201600, 604800, 201601, 604800, 1, 3], 604800);
    opened(rt, &[1, 3, 201600, 604800, 201601, 604800], 604800);
    say::line(rt, "H 604800: a faulty server behind the overrun");
    opened(rt, &[1, 1, 1, 604800, 1, 3, 1, 604801], 604800);
}

// 64 servers, at the last of which work waits first; equal deadlines go to the lower number. 65 are too many.
fn many_servers(rt: &impl Print) {
    say::line(rt, "64 servers and 65");
    let mut table = [64; 128];
    budgets_of_one(&mut table);
    let moves = [
        arrivals(63, 2, 1),
        ticks(1),
        arrivals(7, 1, 1),
        arrivals(5, 1, 1),
        ticks(4),
        arrivals(64, 1, 1),
    ];
    both(rt, &table, 64, &moves);
    many_shares(rt);
    let mut longer = [64; 130];
    budgets_of_one(&mut longer);
    opened(rt, &longer, 64);
}

// 64 servers fill their frame. A tick over at the first, a middle and the last one; and a faulty one behind the overrun.
fn many_shares(rt: &impl Print) {
    say::line(
        rt,
        "64 servers: a tick over at the first, a middle and the last server",
    );
    let mut table = [64; 128];
    budgets_of_one(&mut table);
    table[0] = 2;
    opened(rt, &table, 64);
    table[0] = 1;
    table[62] = 2;
    opened(rt, &table, 64);
    table[62] = 1;
    table[126] = 2;
    opened(rt, &table, 64);
    say::line(rt, "64 servers: a faulty server behind the overrun");
    table[2] = 64;
    table[126] = 0;
    opened(rt, &table, 64);
}

// A list of pairs with every Q set to 1.
fn budgets_of_one(table: &mut [u64]) {
    for pair in table.chunks_exact_mut(2) {
        pair[0] = 1;
    }
}

// 6 for the server and for the cost, at their edges.
fn faulty_arrivals(rt: &impl Print) {
    say::line(rt, "an unknown server");
    both(
        rt,
        &[1, 5],
        5,
        &[arrivals(1, 1, 1), arrivals(usize::MAX, 1, 1)],
    );
    say::line(rt, "costs out of range and in it");
    both(
        rt,
        &[1, 5],
        5,
        &[
            arrivals(0, 0, 1),
            arrivals(0, 604801, 1),
            arrivals(0, u64::MAX, 1),
        ],
    );
    both(rt, &[1, 5], 5, &[arrivals(0, 604800, 1), arrivals(0, 1, 1)]);
}

// What a refused opening hands back takes moves too.
fn after_a_refusal(rt: &impl Print) {
    say::line(rt, "moves after a refused opening");
    both(rt, &[1], 5, &[arrivals(0, 1, 1), ticks(1)]);
}

// 11: a server filled to 4,294,967,295 refuses a cost of 1, and takes it again once a tick is served.
fn full_server(rt: &impl Print) {
    say::line(rt, "a full server");
    let filled = [
        arrivals(0, 604800, 7101),
        arrivals(0, 282496, 1),
        arrivals(0, 282495, 1),
        arrivals(0, 1, 1),
    ];
    both(rt, &[1, 5], 5, &filled);
    say::line(rt, "a full server that is served");
    let served = [
        arrivals(0, 604800, 7101),
        arrivals(0, 282495, 1),
        ticks(1),
        arrivals(0, 1, 2),
    ];
    both(rt, &[1, 5], 5, &served);
}

// 10: no tick beyond 2,419,200, where an arrival is still taken.
fn clock_end(rt: &impl Print) {
    say::line(rt, "the end of the clock");
    both(
        rt,
        &[1, 5, 2, 10],
        10,
        &[
            arrivals(0, 3, 1),
            ticks(2419201),
            arrivals(1, 7, 1),
            ticks(1),
        ],
    );
}
