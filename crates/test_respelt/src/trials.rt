// Random tables written, read again and compared minute by minute; and tables that differ in one minute, in the reserve or in
// nothing.
use crate::lots::{Lot, tender_of};
use crate::{lots, show, tables};
use std::io;
use tender::Kind;
use test_tools::{count, next};

// Two tables compared: how many minutes in all; how many of them, and of the bidders with their prices, differ; how many runs of minutes
// the first has.
#[derive(Clone, Copy, Default)]
struct Comparison {
    minutes: u64,
    apart: u64,
    runs: u64,
}

// The bids of the first compared with those of the second.
fn compare(a: &Lot, b: &Lot) -> Comparison {
    let mut c = Comparison::default();
    for j in 0..a.count {
        let mut before = false;
        count(&mut c.apart, !a.has_bidder_of(b, j));
        for minute in 0..tender::WEEK {
            let held = a.holds(j, minute);
            count(&mut c.minutes, true);
            count(&mut c.apart, held != b.holds(j, minute));
            count(&mut c.runs, held && !before);
            before = held;
        }
    }
    c
}

// In half of the tenders none; a price of one to nine digits.
fn random_reserve(state: u64) -> Option<u64> {
    (state / 4 % 2 != 0).then(|| tables::price_of(state / 8))
}

// Random tables of up to 12 bids.
fn draw(seed: u64, kind: Kind) -> Lot {
    let mut bids = [0u64; 48];
    let mut windows = [0u64; 192];
    let doubled = match kind {
        Kind::Single => 0,
        Kind::Multi => seed / 16 % 4,
    };
    tables::fill_bids(&mut bids, doubled, seed);
    tables::fill_windows(&mut windows, next(seed));
    let start = seed / 256 % 5040;
    let end = start + 1 + seed / 65536 % 5040;
    let number = seed / 64 % 13;
    Lot {
        tender: tender_of(kind, start, end, random_reserve(next(seed))),
        count: number as usize,
        rows: number << doubled,
        bids,
        windows,
    }
}

// The tables with a minute of a window changed to the next or the one before; where that is no window they are refused.
fn changed(mut lot: Lot, seed: u64) -> Lot {
    let any = seed / 1024 % 192;
    let near = if any / 2 < lot.rows { any } else { any % 8 };
    lot.windows[near as usize] ^= 1;
    lot
}

// The reserve as it is, a cent dearer, none, or 0.
fn near_reserve(reserve: Option<u64>, seed: u64) -> Option<u64> {
    match seed / 4096 % 4 {
        0 => reserve,
        1 => Some(reserve.map_or(0, |price| price.wrapping_add(1))),
        2 => None,
        _ => Some(0),
    }
}

// The tables with the same reserve or another; with one above the limit they are refused.
fn other_reserve(mut lot: Lot, seed: u64) -> Lot {
    lot.tender.reserve = near_reserve(lot.tender.reserve, seed);
    lot
}

// What was tried, and how many answers disagree.
#[derive(Clone, Copy, Default)]
struct Tried {
    reserves: u64,
    minutes: u64,
    windows: u64,
    runs: u64,
    equal: u64,
    unequal: u64,
    kept: u64,
    moved: u64,
    wrong: u64,
}

// Whether tables have the same text as this one; none where they are refused.
fn written_beside(near: &Lot, text: &[u8]) -> Option<bool> {
    let mut buf = [0u8; 2000];
    let answer = near.written(&mut buf);
    let other = show::written(answer, &buf);
    (!other.is_empty()).then(|| *other == *text)
}

impl Tried {
    // Whether the text of the tables reads back as the same, with a window for each run of minutes, and is written again as it is.
    fn read_back(&mut self, lot: &Lot, text: &[u8]) {
        let back = lots::read(text);
        let c = compare(lot, &back);
        self.minutes = self.minutes.wrapping_add(c.minutes);
        self.windows = self.windows.wrapping_add(lot.rows);
        self.runs = self.runs.wrapping_add(back.rows);
        count(&mut self.reserves, lot.tender.reserve.is_some());
        let same = lot.count == back.count
            && lot.tender == back.tender
            && c.apart == 0
            && c.runs == back.rows
            && written_beside(&back, text) == Some(true);
        count(&mut self.wrong, !same);
    }

    // Whether tables with a minute changed, where they are not refused, have the same text just where they agree.
    fn change_minute(&mut self, lot: &Lot, near: &Lot, text: &[u8]) {
        if let Some(same) = written_beside(near, text) {
            count(&mut self.equal, same);
            count(&mut self.unequal, !same);
            count(&mut self.wrong, same != (compare(lot, near).apart == 0));
        }
    }

    // Whether tables with the reserve or another, where they are not refused, have the same text just where it is the same.
    fn change_reserve(&mut self, lot: &Lot, near: &Lot, text: &[u8]) {
        if let Some(same) = written_beside(near, text) {
            count(&mut self.kept, same);
            count(&mut self.moved, !same);
            count(
                &mut self.wrong,
                same != (lot.tender.reserve == near.tender.reserve),
            );
        }
    }

    // The text of random tables read back, and set beside the texts of tables near them.
    fn add(&mut self, seed: u64, kind: Kind) {
        let mut buf = [0u8; 2000];
        let lot = draw(seed, kind);
        let answer = lot.written(&mut buf);
        let text = show::written(answer, &buf);
        self.read_back(&lot, text);
        self.change_minute(&lot, &changed(lot, seed), text);
        self.change_reserve(&lot, &other_reserve(lot, seed), text);
    }
}

// So many random tables, of either kind by turns.
fn all(n: u64) -> Tried {
    let mut t = Tried::default();
    let mut state: u64 = 20261116;
    for i in 0..n {
        state = next(state);
        t.add(
            state,
            if i % 2 == 0 {
                Kind::Multi
            } else {
                Kind::Single
            },
        );
    }
    t
}

// Tries so many random tables, and tells it.
pub(crate) fn told(rt: &impl Print, n: u64) -> io::Result<()> {
    let t = all(n);
    println!(rt; "random tables written and read again {n}")?;
    println!(rt; "with a reserve {}", t.reserves)?;
    println!(rt; "bids {}", t.minutes / tender::WEEK)?;
    println!(rt; "minutes compared {}", t.minutes)?;
    println!(rt; "windows drawn {}", t.windows)?;
    println!(rt; "windows written {}", t.runs)?;
    println!(rt; "changed tables with the same bytes {}", t.equal)?;
    println!(rt; "changed tables with other bytes {}", t.unequal)?;
    println!(rt; "reserves kept, the same bytes {}", t.kept)?;
    println!(rt; "reserves changed, other bytes {}", t.moved)?;
    println!(rt; "disagreements {}", t.wrong)
}
