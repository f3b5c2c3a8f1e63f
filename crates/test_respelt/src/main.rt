// Reads bid texts and writes them in one spelling, near misses that can be read by eye; lends buffers that are short, exact and
// longer; writes tables of great length and tables with a fault; and writes random tables, half of them with a reserve, and reads
// them again. Says what was written or refused, and of the random tables how many answers disagree.
#![tactic(auto)]

mod lots;
mod show;
mod tables;
mod trials;

use std::io;
use tables::LongBids;
use tender::Kind;
use test_tools::Output;

// Windows that touch, stand a minute apart, overlap, lie inside others, and hold the week.
const JOINED: [&str; 5] = [
    "(tender multi 0 10)\n(bid 11 30 (5 9) (0 5))\n",
    "(tender multi 0 10)\n(bid 11 30 (0 5) (6 9))\n",
    "(tender multi 0 10)\n(bid 11 30 (0 5) (4 9) (9 10))\n",
    "(tender multi 0 10)\n(bid 11 30 (128 200) (63 65) (70 75) (65 128))\n",
    "(tender multi 0 10)\n(bid 11 30 (0 10080))\n",
];

// Windows outside the tender, no bids, 32 windows, a single tender, bids in entry order.
const KEPT: [&str; 5] = [
    "(tender multi 50 60)\n(bid 11 30 (70 80) (0 5) (80 90))\n",
    "(tender multi 0 10)\n",
    "(tender multi 0 10)\n(bid 11 30 (62 63) (60 61) (58 59) (56 57) (54 55) (52 53) (50 51) (48 49) (46 47) (44 45) (42 43) \
    (40 41) (38 39) (36 37) (34 35) (32 33) (30 31) (28 29) (26 27) (24 25) (22 23) (20 21) (18 19) (16 17) (14 15) (12 13) \
    (10 11) (8 9) (6 7) (4 5) (2 3) (0 1))\n",
    "(tender single 0 100)\n(bid 11 0 (0 50))\n(bid 3 100000000 (40 100))\n",
    "(tender multi 0 10)\n(bid 11 30 (0 5))\n(bid 3 7 (9 10) (5 9))\n",
];

// Two texts that differ in the order of windows, and two that differ in the order of bids.
const PAIRS: [(&str, &str); 2] = [
    (
        "(tender multi 0 10)\n(bid 11 30 (0 5) (6 9))\n(bid 3 7 (0 9))\n",
        "(tender multi 0 10)\n(bid 11 30 (6 9) (0 5))\n(bid 3 7 (0 9))\n",
    ),
    (
        "(tender multi 0 10)\n(bid 11 30 (0 5) (6 9))\n(bid 3 7 (0 9))\n",
        "(tender multi 0 10)\n(bid 3 7 (0 9))\n(bid 11 30 (0 5) (6 9))\n",
    ),
];

// A reserve beside a bid and alone.
const RESERVES: [&str; 2] = [
    "(tender multi 0 10)\n(reserve 5000)\n(bid 11 30 (5 9) (0 5))\n",
    "(tender single 0 10)\n(reserve 0)\n",
];

// Two texts that differ in the reserve, and two of which one has none. Beside a reserve: two texts that differ in the order of windows,
// and two of which one has a bid of all the minutes in its place. Two texts whose prices differ in the spelling, and two whose prices
// differ in the place of a digit.
const RESERVE_PAIRS: [(&str, &str); 6] = [
    (
        "(tender multi 0 10)\n(reserve 100000000)\n(bid 11 30 (0 5))\n",
        "(tender multi 0 10)\n(reserve 10000000)\n(bid 11 30 (0 5))\n",
    ),
    (
        "(tender multi 0 10)\n(reserve 0)\n(bid 11 30 (0 5))\n",
        "(tender multi 0 10)\n(bid 11 30 (0 5))\n",
    ),
    (
        "(tender multi 0 10)\n(reserve 7)\n(bid 11 30 (0 5) (6 9))\n",
        "(tender multi 0 10)\n(reserve 7)\n(bid 11 30 (6 9) (0 5))\n",
    ),
    (
        "(tender multi 0 10)\n(reserve 7)\n(bid 11 30 (0 5))\n",
        "(tender multi 0 10)\n(bid 11 30 (0 5))\n(bid 1 7 (0 10))\n",
    ),
    (
        "(tender multi 0 10)\n(reserve 5000)\n(bid 11 250 (0 5))\n(bid 3 0 (0 9))\n",
        "(tender multi 0 10)\n(reserve 50.00)\n(bid 11 2.50 (0 5))\n(bid 3 0.00 (0 9))\n",
    ),
    (
        "(tender multi 0 10)\n(reserve 1000000.00)\n(bid 11 0.50 (0 5))\n",
        "(tender multi 0 10)\n(reserve 1000000.00)\n(bid 11 0.05 (0 5))\n",
    ),
];

fn texts(rt: &impl Print, texts: &[&str]) -> io::Result<()> {
    for text in texts {
        show::text(rt, text)?;
    }
    Ok(())
}

fn pairs(rt: &impl Print, pairs: &[(&str, &str)]) -> io::Result<()> {
    for (a, b) in pairs {
        show::pair(rt, a, b)?;
    }
    Ok(())
}

// A text of 38 bytes, and one of 53 with a reserve.
fn lent_buffers(rt: &impl Print) -> io::Result<()> {
    let plain = "(tender multi 0 10)\n(bid 11 30 (5 9) (0 5))\n";
    show::lend(rt, "a buffer one byte short", plain, &mut [7u8; 37])?;
    show::lend(rt, "a buffer of 38 bytes", plain, &mut [7u8; 38])?;
    show::lend(rt, "a buffer of 60 bytes", plain, &mut [7u8; 60])?;
    let reserved = "(tender multi 0 10)\n(reserve 5000)\n(bid 11 30 (5 9) (0 5))\n";
    show::lend(
        rt,
        "with a reserve, one byte short",
        reserved,
        &mut [7u8; 52],
    )?;
    show::lend(rt, "with a reserve, 53 bytes", reserved, &mut [7u8; 53])
}

// 9 comes before 14.
fn faults(rt: &impl Print) -> io::Result<()> {
    let multi = tender::plain(Kind::Multi, 0, 10);
    let single = tender::plain(Kind::Single, 0, 10);
    show::nowhere(rt, "no buffer", multi, 2, 11)?;
    show::nowhere(rt, "no buffer, bidder 0 in row 2", multi, 2, 0)?;
    show::nowhere(
        rt,
        "no buffer, two windows in row 2 of a single tender",
        single,
        2,
        11,
    )?;
    show::nowhere(rt, "no buffer, more bids stated than lent", multi, 3, 11)?;
    let most = lots::tender_of(Kind::Multi, 0, 10, Some(100000000));
    let dear = lots::tender_of(Kind::Multi, 0, 10, Some(100000001));
    show::nowhere(rt, "no buffer, a reserve at the limit", most, 2, 11)?;
    show::nowhere(rt, "no buffer, bidder 0 in row 2 beside it", most, 2, 0)?;
    show::nowhere(rt, "no buffer, a reserve above the limit", dear, 2, 11)?;
    show::nowhere(rt, "no buffer, bidder 0 in row 2 beside that", dear, 2, 0)
}

// The last bid of a text of 65536 bytes has 42 bytes and its price, after 139 of 471 bytes; with a reserve it has 28 bytes and its
// price, and the reserve's line has 11 bytes and the price.
const LONG: [(&str, Option<u64>, LongBids); 6] = [
    (
        "1000 bids of 471 bytes",
        None,
        LongBids {
            count: 1000,
            price: 100000000,
            windows: 32,
        },
    ),
    (
        "1000 bids, the last with a price above the limit",
        None,
        LongBids {
            count: 1000,
            price: 100000001,
            windows: 32,
        },
    ),
    (
        "a text of 65537 bytes",
        None,
        LongBids {
            count: 140,
            price: 100000,
            windows: 2,
        },
    ),
    (
        "a text of 65537 bytes with a reserve",
        Some(1000),
        LongBids {
            count: 140,
            price: 10000,
            windows: 1,
        },
    ),
    (
        "a text of 65536 bytes",
        None,
        LongBids {
            count: 140,
            price: 10000,
            windows: 2,
        },
    ),
    (
        "a text of 65536 bytes with a reserve",
        Some(999),
        LongBids {
            count: 140,
            price: 10000,
            windows: 1,
        },
    ),
];

// One buffer serves all of them.
fn long_texts(rt: &impl Print) -> io::Result<()> {
    let mut buf = [7u8; 65600];
    for (label, reserve, long) in LONG {
        show::long(rt, label, reserve, long, &mut buf)?;
    }
    Ok(())
}

fn tell_all(rt: &impl Print) -> io::Result<()> {
    texts(rt, &JOINED)?;
    texts(rt, &KEPT)?;
    pairs(rt, &PAIRS)?;
    texts(rt, &RESERVES)?;
    pairs(rt, &RESERVE_PAIRS)?;
    lent_buffers(rt)?;
    faults(rt)?;
    long_texts(rt)?;
    trials::told(rt, 400)
}

// A program of this repository has no exit status, so an output that cannot be written is not told.
fn main() {
    let _ = tell_all(&Output);
}
