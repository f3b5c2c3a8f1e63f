// Random tenders.
ghost use Rattle.std.specs.Prelude.{◌<◌, ◌≤◌};

use crate::brute;
use crate::brute::Entries;
use tender::Kind;
use test_tools::next;

// A number below n, which the state gives; 0 where n is 0.
pub(crate) fn below(state: u64, n: u64) -> u64
    ensures at_most { result ≤ n }
    ensures under { 0 < n → result < n }
{
    if n == 0 { 0 } else { (state >> 11) % n }
}

// A tender of up to seven entries, its bids and the house, over up to 11 cells of `width` minutes each: in the two tables and the
// reserve, and with the price of each entry and its cells as bits. The answer is that of cells of a minute: every reach is
// multiplied by the width.
#[derive(Clone, Copy)]
pub(crate) struct Lot {
    pub(crate) state: u64,
    pub(crate) width: u64,
    pub(crate) start: u64,
    pub(crate) reserve: Option<u64>,
    pub(crate) count: usize,
    pub(crate) rows: usize,
    pub(crate) bids: [u64; 28],
    pub(crate) windows: [u64; 42],
    pub(crate) entries: Entries,
}

// The first minute of a cell; the end of the week from there on.
pub(crate) fn minute(cell: u64, width: u64) -> u64 {
    width.wrapping_mul(cell).min(tender::WEEK)
}

// The widths of cells with which 15 cells, and ten, are a week.
const WIDE: u64 = 672;

const WIDEST: u64 = 1008;

// The width of the cells in tender i: a minute in every other, mostly 6 to 60 in the rest.
fn width_of(i: u64, state: u64) -> u64 {
    match i % 64 {
        1 => WIDE,
        3 => WIDEST,
        k => if k % 2 == 0 { 1 } else { 6 + state % 55 },
    }
}

// The first cell and the number of cells: of the widest, the whole week.
fn start_of(width: u64, state: u64) -> u64 {
    if width == WIDEST { 0 } else { below(state, 5) }
}

fn length_of(width: u64, state: u64) -> u64 {
    if width == WIDEST {
        10
    } else {
        1 + below(state, 11)
    }
}

fn price_of(state: u64) -> u64 {
    if state % 3 == 0 {
        below(state, 4)
    } else {
        below(state, 16)
    }
}

// One window, or up to three.
fn windows_of(kind: Kind, state: u64) -> u64 {
    match kind {
        Kind::Single => 1,
        Kind::Multi => 1 + state % 3,
    }
}

// What the house asks: little, as much as a bid may, or as several bids may together.
fn reserve_of(state: u64) -> u64 {
    match state % 4 {
        0 => below(state, 4),
        1 => below(state, 16),
        _ => below(state, 48),
    }
}

// Three to seven bids, or none to six beside the house.
fn count_of(reserved: bool, state: u64) -> usize {
    if reserved {
        below(state, 7) as usize
    } else {
        (3 + below(state, 5)) as usize
    }
}

impl Lot {
    // One more window for bid i, where the table has room.
    fn add_window(&mut self, i: usize) {
        let row = self.rows;
        if 6 < i || 20 < row {
            return;
        }
        let s1 = next(self.state);
        let s2 = next(s1);
        let s = below(s1, 8);
        let e = s + 1 + below(s2, 16);
        let start = self.start;
        let held = brute::bits(self.entries.length, |x| {
            (s..e).contains(&start.wrapping_add(x))
        });
        self.windows[2 * row] = minute(s, self.width);
        self.windows[2 * row + 1] = minute(e, self.width);
        self.entries.masks[i] |= held;
        self.rows = row + 1;
        self.state = s2;
    }

    // Bid i.
    fn add_bid(&mut self, i: usize, kind: Kind) {
        if 6 < i {
            return;
        }
        let s1 = next(self.state);
        let s2 = next(s1);
        let n = windows_of(kind, s2);
        let price = price_of(s1);
        self.state = s2;
        self.bids[4 * i] = 10 + 3 * (i as u64) + s2 % 3;
        self.bids[4 * i + 1] = price;
        self.bids[4 * i + 2] = self.rows as u64;
        self.bids[4 * i + 3] = n;
        self.entries.prices[i] = price;
        for _ in 0..n {
            self.add_window(i);
        }
    }

    // The house, where there is a reserve: one entry more, after the bids, that has every cell.
    fn add_house(&mut self) {
        let n = self.count;
        if let Some(price) = self.reserve {
            if n < 7 {
                self.entries.prices[n] = price;
                self.entries.masks[n] = self.entries.cells();
            }
        }
    }
}

// Tender i of a series; tender 0 has cells of a minute. Half of the tenders have a reserve.
pub(crate) fn draw(seed: u64, kind: Kind, i: u64) -> Lot {
    let s1 = next(seed);
    let s2 = next(s1);
    let s3 = next(s2);
    let s4 = next(s3);
    let width = width_of(i, s3);
    let reserved = s4 / 4 % 2 == 0;
    let count = count_of(reserved, s3);
    let mut lot = Lot {
        state: s4,
        width,
        start: start_of(width, s1),
        reserve: reserved.then(|| reserve_of(s4)),
        count,
        rows: 0,
        bids: [0; 28],
        windows: [0; 42],
        entries: Entries {
            prices: [0; 7],
            masks: [0; 7],
            length: length_of(width, s2),
        },
    };
    for j in 0..count {
        lot.add_bid(j, kind);
    }
    lot.add_house();
    lot
}

// So many tenders of each kind by turns, each tried as it is drawn.
pub(crate) fn series<F: FnMut(&Lot, Kind, u64)>(seed: u64, n: u64, mut tried: F)
    requires { F.IsAlwaysCallable tried }
{
    let mut state = seed;
    for i in 0..n {
        let single = draw(state, Kind::Single, i);
        tried(&single, Kind::Single, i);
        let multi = draw(single.state, Kind::Multi, i);
        tried(&multi, Kind::Multi, i);
        state = multi.state;
    }
}
