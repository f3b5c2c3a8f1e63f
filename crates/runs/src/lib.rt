// A bid's minutes as a row of words, one cell a minute, and the unbroken runs of them: `minutes` makes the row of windows of a
// table, `next` finds the run that begins first from a minute on. `specs/` says what a bid's windows joined are: its runs in rising order.
#![tactic(auto)]

ghost use Rattle.std.specs.Prelude.{◌≡◌, true, ◌+◌, ◌*◌, ◌/◌, ◌≤◌, length, drop};
ghost use Rattle.tender.specs.Limits.{lawful, every};
ghost use Rattle.tender.specs.Tables.{windows_of, window_width};
ghost use Rattle.runs.specs.MinuteRows.{row_words, row_cells, Empty, Full, Minutes, NextRun};

use cells::MaskTable;

// Sets the minutes of the windows from `first` on, `count` of them, in a row that has none, by the table of masks.
fn add_windows(table: &MaskTable, windows: &[u64], first: usize, count: usize, row: &mut [u64])
    requires { (first + count ≤ length windows.now / window_width)
        × ((every lawful (windows_of count (drop (window_width * first) windows.now)) ≡ true) × Empty row.old) }
    ensures { Minutes (windows_of count (drop (window_width * first) windows.now)) row.new }
{
    for j in 0..count {
        let at = tender::WINDOW_WIDTH * (first + j);
        let start = windows[at] as usize;
        let end = windows[at + 1] as usize;
        cells::add_range_by(table, row, start, end);
    }
}

// The minutes of the windows from `first` on, `count` of them, as a row of words.
pub fn minutes(windows: &[u64], first: usize, count: usize, row: &mut [u64])
    requires { (first + count ≤ length windows.now / window_width)
        × ((every lawful (windows_of count (drop (window_width * first) windows.now)) ≡ true) × (length row.old ≡ row_words)) }
    ensures { Minutes (windows_of count (drop (window_width * first) windows.now)) row.new }
{
    cells::clear(row);
    add_windows(&MaskTable::new(), windows, first, count, row);
}

// The minutes from `start` to `end` - 1; none where the two are equal.
#[derive(Clone, Copy)]
pub struct Run {
    pub start: usize,
    pub end: usize,
}

// The next unbroken run of a row from `from` on. Lent beside it: a row without a cell, and one with every cell.
pub fn next(row: &[u64], none: &[u64], all: &[u64], from: usize) -> Run
    requires { (length row.now ≡ row_words) × ((from ≤ row_cells) × (Empty none.now × Full all.now)) }
    ensures { NextRun row.now from result.start result.end }
{
    let start = cells::next(row, none, from);
    let end = cells::next(all, row, start);
    Run { start, end }
}
