// Parts of what a bid has, by whole cells counted from the start of the week, and the tables of a tender in which a bid offers a part.
use crate::random::Lot;
use crate::{brute, random};
use tender::Kind;

// The cells that a window can have: it begins before cell 8, and has at most 16.
const CELLS: u64 = 24;

// Whether row r of the windows is bid i's.
fn row_of(lot: &Lot, i: usize, r: usize) -> bool {
    if 6 < i {
        return false;
    }
    let first = lot.bids[4 * i + 2];
    (first..first.wrapping_add(lot.bids[4 * i + 3])).contains(&(r as u64))
}

// Whether row r of the windows has all of cell x; past the end of the week a cell has no minute.
fn row_has(lot: &Lot, r: usize, x: u64) -> bool {
    let start = random::minute(x, lot.width);
    let end = random::minute(x.wrapping_add(1), lot.width);
    r < 21 && start < end && lot.windows[2 * r] <= start && end <= lot.windows[2 * r + 1]
}

// The cells that bid i has, as bits.
pub(crate) fn cells_had(lot: &Lot, i: usize) -> u64 {
    brute::bits(CELLS, |x| {
        (0..21).any(|r| row_of(lot, i, r) && row_has(lot, r, x))
    })
}

// Part k of the cells that a bid of one window has: those from k / 25 up to k % 25, where it has them all; else no cell.
fn part_of_window(had: u64, k: u64) -> u64 {
    let part = brute::bits(k % 25, |x| k / 25 <= x);
    if part & !had == 0 { part } else { 0 }
}

// Part k of the cells that a bid has: where the tender has up to six cells, those inside it that are the bits of k, and no cell where
// the bid has not all of these; in a longer tender any inside it. And any outside it.
fn part_of_cells(lot: &Lot, had: u64, k: u64, state: u64) -> u64 {
    let start = lot.start % 64;
    let all = lot.entries.cells() << start;
    let inside = if lot.entries.length <= 6 {
        k << start
    } else {
        (state >> 8) & had & all
    };
    if inside & !(had & all) != 0 {
        return 0;
    }
    inside | ((state >> 32) & had & !all)
}

// A part that a bid offers: its cells as bits, and those of them at which a window ends and another begins.
#[derive(Clone, Copy)]
pub(crate) struct Part {
    pub(crate) cells: u64,
    cuts: u64,
}

// Part k of the cells that a bid has; the windows of several cut anywhere.
pub(crate) fn part_of(lot: &Lot, kind: Kind, had: u64, k: u64, state: u64) -> Part {
    match kind {
        Kind::Single => Part {
            cells: part_of_window(had, k),
            cuts: 0,
        },
        Kind::Multi => Part {
            cells: part_of_cells(lot, had, k, state),
            cuts: state & (state >> 24),
        },
    }
}

// How many numbers the parts of a bid have.
pub(crate) fn parts_of(kind: Kind) -> u64 {
    match kind {
        Kind::Single => 625,
        Kind::Multi => 64,
    }
}

// The two tables, as far as they are written anew: with the bidders and prices of the lot, and other windows.
#[derive(Clone, Copy)]
pub(crate) struct Tables {
    pub(crate) bids: [u64; 28],
    pub(crate) windows: [u64; 80],
    rows: usize,
}

impl Tables {
    fn add_row(&mut self, start: u64, end: u64) {
        let row = self.rows;
        if 39 < row {
            return;
        }
        self.windows[2 * row] = start;
        self.windows[2 * row + 1] = end;
        self.rows = row + 1;
    }

    // The windows of bid i as they stand in the lot.
    fn add_all(&mut self, lot: &Lot, i: usize) {
        for r in 0..21 {
            if row_of(lot, i, r) {
                self.add_row(lot.windows[2 * r], lot.windows[2 * r + 1]);
            }
        }
    }

    // A window for each run of cells of the part, one more for each cut inside a run: a window ends there and another begins.
    fn add_part(&mut self, part: Part, width: u64) {
        let cells = part.cells;
        let firsts = cells & (!(cells << 1) | part.cuts);
        let lasts = cells & (!(cells >> 1) | (part.cuts >> 1));
        let mut start: u64 = 0;
        for x in 0..CELLS {
            if brute::within(firsts, x as usize) {
                start = random::minute(x, width);
            }
            if brute::within(lasts, x as usize) {
                self.add_row(start, random::minute(x + 1, width));
            }
        }
    }

    // Bid j has the windows from row `first` on.
    fn end_bid(&mut self, j: usize, first: usize) {
        if 6 < j {
            return;
        }
        self.bids[4 * j + 2] = first as u64;
        self.bids[4 * j + 3] = self.rows.wrapping_sub(first) as u64;
    }
}

// The tables in which bid i offers the part, and the others what they have.
pub(crate) fn tables_of(lot: &Lot, i: usize, part: Part) -> Tables {
    let mut t = Tables {
        bids: lot.bids,
        windows: [0; 80],
        rows: 0,
    };
    for j in 0..lot.count {
        let first = t.rows;
        if j == i {
            t.add_part(part, lot.width);
        } else {
            t.add_all(lot, j);
        }
        t.end_bid(j, first);
    }
    t
}
