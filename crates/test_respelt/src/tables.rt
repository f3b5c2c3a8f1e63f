// Tables filled cell by cell: of great length, or random.
ghost use Rattle.std.specs.Prelude.{◌≤◌};

use test_tools::next;

const POWERS: [u64; 9] = [
    1, 10, 100, 1000, 10000, 100000, 1000000, 10000000, 100000000,
];

// A power of ten, up to 100,000,000.
fn power(exponent: u64) -> u64
    ensures { (1 ≤ result) × (result ≤ 100000000) }
{
    POWERS[exponent.min(8) as usize]
}

// A price of one to nine digits, at times a power of ten.
pub(crate) fn price_of(state: u64) -> u64 {
    let most = power(state % 9);
    if state / 16 % 8 == 0 {
        return most;
    }
    state / 128 % most
}

// A bidder, another for each of 12 rows.
fn bidder_of(state: u64, row: u64) -> u64 {
    83000 * ((5 * (row % 12) + 7) % 12) + 1 + state / 16 % power(state % 6) % 83000
}

// Near either end of the week, at the end of the window before or a few minutes off, at the start or the end of a word, or anywhere.
fn start_of(state: u64, before: u64) -> u64 {
    let few = state / 16 % 6;
    let any = state / 65536 % 10080;
    match state % 8 {
        0 => few,
        1 => 10079 - few,
        2 => before.min(10079),
        3 => before.wrapping_add(few).min(10079),
        4 => if few < before {
            (before - few).min(10079)
        } else {
            few
        },
        5 => 64 * (any % 6),
        6 => 64 * (any % 157) + 63,
        _ => any,
    }
}

// A few minutes, a word or more after the start, or at the end of a word; in the week.
fn end_of(state: u64, start: u64) -> u64 {
    let s = start.min(10079);
    let end = match state % 4 {
        0 => s + 1 + state / 16 % 6,
        1 => s + 64,
        2 => s + 1 + state / 16 % 200,
        _ => 64 * (s / 64 + 1),
    };
    end.min(10080)
}

// Each cell of a table, by its place, the number in the cell before, and the next random number after the seed.
fn fill<F: Fn(usize, u64, u64) -> u64>(cells: &mut [u64], seed: u64, cell: F)
    requires { F.IsAlwaysCallable cell }
{
    let mut state = seed;
    let mut before = 0;
    for (i, number) in cells.iter_mut().enumerate() {
        state = next(state);
        before = cell(i, before, state);
        *number = before;
    }
}

// Bids of one random window each, doubled so often.
pub(crate) fn fill_bids(cells: &mut [u64], doubled: u64, seed: u64) {
    fill(cells, seed, |i, _, state| {
        let row = (i / 4) as u64;
        match i % 4 {
            0 => bidder_of(state, row),
            1 => price_of(state),
            2 => row << (doubled % 4),
            _ => 1 << (doubled % 4),
        }
    });
}

// Random windows.
pub(crate) fn fill_windows(cells: &mut [u64], seed: u64) {
    fill(cells, seed, |i, before, state| {
        if i % 2 == 0 {
            start_of(state, before)
        } else {
            end_of(state, before)
        }
    });
}

// So many bids of 32 windows each, the last with this price and so many windows.
#[derive(Clone, Copy)]
pub(crate) struct LongBids {
    pub(crate) count: usize,
    pub(crate) price: u64,
    pub(crate) windows: u64,
}

pub(crate) fn fill_long_bids(cells: &mut [u64], long: LongBids) {
    fill(cells, 0, |i, _, _| {
        let row = (i / 4 % 1000) as u64;
        let last = i / 4 + 1 == long.count;
        match i % 4 {
            0 => 100001 + row,
            1 => if last { long.price } else { tender::MAX_PRICE },
            2 => 32 * row,
            _ => if last { long.windows } else { 32 },
        }
    });
}

// Windows from the minutes 10000, 10002 and so on, 32 of them for each bid, whose line then has 471 bytes.
pub(crate) fn fill_far_windows(cells: &mut [u64]) {
    fill(cells, 0, |i, _, _| 10000 + (i % 64) as u64);
}
