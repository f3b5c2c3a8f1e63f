// Near misses that can be read by eye: a bid text, and for each bidder number asked for the answer.
use crate::lots;
use crate::lots::Lot;
use std::{fmt, io};
use tender::Refusal;

// An answer as it is written: the price, none, or refused with number and place.
#[derive(Clone, Copy)]
struct Told(Result<Option<u64>, Refusal>);

impl fmt::Display for Told {
    fn fmt<W: fmt::Write>(&self, f: &mut fmt::Formatter<W>) -> fmt::Result {
        match self.0 {
            Ok(Some(price)) => write!(f, "{price}"),
            Ok(None) => write!(f, "none"),
            Err(r) => write!(f, "refused {} {}", tender::number(r), tender::place(r)),
        }
    }
}

// Asks for the bid with this number.
fn ask(rt: &impl Print, lot: &Lot, number: u64) -> io::Result<()> {
    println!(rt; "  {number}: {}", Told(lot.asked(number)))
}

// Asks for each bid of the text.
fn each(rt: &impl Print, text: &str) -> io::Result<()> {
    let lot = lots::read(text);
    print!(rt; "{text}")?;
    for i in 0..lot.count.min(6) {
        ask(rt, &lot, lot.bidder(i))?;
    }
    Ok(())
}

const WORKED: &str =
    "(tender single 0 100)\n(bid 11 30 (0 50))\n(bid 12 40 (40 100))\n(bid 13 90 (0 100))\n\
    (bid 14 35 (0 60))\n(bid 15 50 (60 100))\n";

// Worked tenders 1 and 3, ties, and bids with no minute in the tender.
const PRICES: [&str; 7] = [
    WORKED,
    "(tender single 0 10)\n(bid 1 40 (0 10))\n(bid 2 30 (0 10))\n",
    "(tender multi 0 10)\n(bid 21 12 (0 4) (6 8))\n(bid 22 15 (4 10))\n(bid 23 30 (0 10))\n(bid 24 9 (8 10) (4 5))\n",
    "(tender single 0 10)\n(bid 1 0 (0 10))\n(bid 2 0 (0 10))\n",
    "(tender multi 0 10)\n(bid 1 0 (0 10))\n(bid 2 0 (0 10))\n",
    "(tender single 0 10)\n(bid 1 5 (0 10))\n(bid 2 6 (0 10))\n(bid 3 0 (10 20))\n",
    "(tender multi 5 10)\n(bid 1 0 (0 5) (10 20))\n(bid 2 5 (0 10))\n(bid 3 6 (0 10))\n",
];

// Answers above the limit of prices, and tenders with a reserve.
const LIMITS: [&str; 6] = [
    "(tender single 0 10)\n(bid 1 100000000 (0 5))\n(bid 2 100000000 (5 10))\n(bid 3 100000000 (0 10))\n",
    "(tender single 0 10)\n(bid 3 100000000 (0 10))\n(bid 1 100000000 (0 5))\n(bid 2 100000000 (5 10))\n",
    "(tender multi 0 10)\n(bid 3 100000000 (0 10))\n(bid 1 100000000 (0 5))\n(bid 2 100000000 (5 10))\n",
    "(tender single 480 600)\n(reserve 5000)\n(bid 31 1200 (480 560))\n(bid 32 900 (540 600))\n(bid 33 1500 (500 600))\n",
    "(tender single 0 10)\n(reserve 0)\n(bid 1 0 (0 10))\n(bid 2 0 (0 10))\n",
    "(tender multi 0 10)\n(reserve 100)\n(bid 21 12 (0 4) (6 8))\n",
];

// Asks for a bid and for a number that no bid has, of worked tender 1 with so many bids and a number of the bid table set.
fn both(rt: &impl Print, label: &str, count: usize, at: usize, v: u64) -> io::Result<()> {
    let lot = lots::read(WORKED).changed(count, at, v);
    println!(rt; "{label}")?;
    ask(rt, &lot, 11)?;
    ask(rt, &lot, 99)
}

// The other numbers that no bid has: two outside the limits, and that in the row past the last bid.
fn strangers(rt: &impl Print) -> io::Result<()> {
    let lot = lots::read(WORKED);
    ask(rt, &lot, 0)?;
    ask(rt, &lot, 18446744073709551615)?;
    println!(rt; "the first four bids")?;
    ask(rt, &lot.changed(4, 0, 11), 15)
}

// A fault of the tender, beside a row of zeros.
fn faulty_tender(rt: &impl Print) -> io::Result<()> {
    let lot = lots::read("").changed(1, 0, 0);
    println!(rt; "from 0 to 0, a bid of zeros")?;
    ask(rt, &lot, 0)?;
    ask(rt, &lot, 99)
}

pub(crate) fn cases(rt: &impl Print) -> io::Result<()> {
    for text in PRICES {
        each(rt, text)?;
    }
    for text in LIMITS {
        each(rt, text)?;
    }
    both(rt, "the first tender", 5, 0, 11)?;
    strangers(rt)?;
    both(rt, "the first two bids", 2, 0, 11)?;
    both(rt, "the first bid", 1, 0, 11)?;
    both(rt, "a price above the limit in row 3", 5, 9, 100000001)?;
    both(rt, "the number of row 1 in row 4", 5, 12, 11)?;
    both(rt, "one window more than there is in row 5", 5, 19, 2)?;
    both(rt, "more bids stated than lent", 7, 0, 11)?;
    faulty_tender(rt)
}
