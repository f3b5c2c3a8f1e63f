// Another check of the tables: the place of refusal 9.
use tender::{Kind, Tender};

// The number at place i, 0 past the end.
fn at(cells: &[u64], i: usize) -> u64 {
    cells.get(i).copied().unwrap_or(0)
}

// Whether one of the first j rows has the bidder.
fn used(bids: &[u64], j: usize, bidder: u64) -> bool {
    bids.iter().step_by(4).take(j).any(|b| *b == bidder)
}

// Whether the windows from row `first` on, `count` of them, keep their rule.
fn windows_right(windows: &[u64], first: u64, count: u64) -> bool {
    (0..count).all(|k| {
        let row = (first.wrapping_add(k) % 65536) as usize;
        let end = at(windows, 2 * row + 1);
        at(windows, 2 * row) < end && end <= 10080
    })
}

fn row_right(kind: Kind, bids: &[u64], j: usize, first: u64, windows: &[u64]) -> bool {
    if 1000 < j {
        return false;
    }
    let bidder = at(bids, 4 * j);
    let count = at(bids, 4 * j + 3);
    let most = match kind {
        Kind::Single => 1,
        Kind::Multi => 32,
    };
    let rows = (windows.len() / 2) as u64;
    if bidder == 0 || 999999 < bidder || used(bids, j, bidder) {
        return false;
    }
    if 100000000 < at(bids, 4 * j + 1) || at(bids, 4 * j + 2) != first {
        return false;
    }
    if count == 0 || most < count || rows < first || rows - first < count {
        return false;
    }
    windows_right(windows, first, count)
}

// Whether the tender keeps the limits of its window and of its reserve.
fn tender_right(tender: Tender) -> bool {
    let window = tender.window;
    if window.end <= window.start || 10080 < window.end {
        return false;
    }
    tender.reserve.is_none_or(|price| price <= 100000000)
}

// The place of the fault, where a rule is broken.
pub(crate) fn fault(
    kind: Kind,
    tender: Tender,
    count: usize,
    bids: &[u64],
    windows: &[u64],
) -> Option<u64> {
    if !tender_right(tender) || bids.len() / 4 < count {
        return Some(0);
    }
    let mut first: u64 = 0;
    for j in 0..count.min(1001) {
        if j == 1000 || !row_right(kind, bids, j, first, windows) {
            return Some(j as u64 + 1);
        }
        first = first.wrapping_add(at(bids, 4 * j + 3));
    }
    None
}
