// A tender with its tables as one value: read from a text, or drawn.
use tender::{Kind, Refusal, Span, Tender};
use test_tools::next;

// A tender, and tables of six bids and twelve windows, of which the first `count` bids are put.
#[derive(Clone, Copy)]
pub(crate) struct Lot {
    pub(crate) tender: Tender,
    pub(crate) count: usize,
    pub(crate) bids: [u64; 24],
    pub(crate) windows: [u64; 24],
}

// The lot that is read from the text; where that is refused, one of a tender from 0 to 0.
pub(crate) fn read(text: &str) -> Lot {
    let mut bids = [0u64; 24];
    let mut windows = [0u64; 24];
    let (tender, count) = match reader::read(text.as_bytes(), &mut bids, &mut windows) {
        Ok(filled) => (filled.tender, filled.bids),
        Err(_) => (tender::plain(Kind::Multi, 0, 0), 0),
    };
    Lot {
        tender,
        count,
        bids,
        windows,
    }
}

impl Lot {
    // The lot with so many of its bids, and with one number of the bid table set.
    pub(crate) fn changed(mut self, count: usize, at: usize, v: u64) -> Lot {
        self.count = count;
        self.bids[at % 24] = v;
        self
    }

    // The bidder number in row i of the bid table; one that no row has past the last.
    pub(crate) fn bidder(&self, i: usize) -> u64 {
        if i < 6 { self.bids[4 * i] } else { 999999 }
    }

    // With which price the bid with this number would win.
    pub(crate) fn asked(&self, number: u64) -> Result<Option<u64>, Refusal> {
        highest::highest_price(self.tender, self.count, &self.bids, &self.windows, number)
    }
}

// The first minute of a cell: each is a minute, or 37 of them, so that cells lie across words.
fn minute(cell: u64, wide: bool) -> u64 {
    if wide { 37 * (cell % 64) } else { cell }
}

// A tender of three to eight cells, for which the house may ask 5 to 28.
fn tender_of(kind: Kind, reserved: bool, wide: bool, state: u64) -> Tender {
    let first = state / 64 % 4;
    Tender {
        kind,
        window: Span {
            start: minute(first, wide),
            end: minute(first + 3 + state / 4096 % 6, wide),
        },
        reserve: reserved.then(|| 5 + state / 262144 % 24),
    }
}

impl Lot {
    // Bid i, which asks up to 8, and the windows in rows 2 i and 2 i + 1. A bid has those two in a multi tender, and that in row i in a
    // single one.
    fn put_bid(&mut self, i: usize, wide: bool, state: u64) {
        let row = i % 6;
        let at = 4 * row;
        let (place, number) = match self.tender.kind {
            Kind::Single => (row, 1),
            Kind::Multi => (2 * row, 2),
        };
        let first = state / 64 % 5;
        let second = state / 4096 % 6;
        self.bids[at] = 10 + 3 * row as u64 + state % 3;
        self.bids[at + 1] = state / 262144 % 9;
        self.bids[at + 2] = place as u64;
        self.bids[at + 3] = number;
        self.windows[at] = minute(first, wide);
        self.windows[at + 1] = minute(first + 1 + state / 16777216 % 8, wide);
        self.windows[at + 2] = minute(second, wide);
        self.windows[at + 3] = minute(second + 1 + state / 1073741824 % 8, wide);
    }
}

// A random lot, of which up to five rows are not put, with small prices, so that ties are common; in one of eight, a number of the bid
// table is 0 or above every limit.
pub(crate) fn draw(seed: u64, kind: Kind, reserved: bool) -> Lot {
    let s = next(seed);
    let wide = s / 1073741824 % 2 == 0;
    let count = (1 + s / 4294967296 % 6) as usize;
    let mut lot = Lot {
        tender: tender_of(kind, reserved, wide, s),
        count,
        bids: [0; 24],
        windows: [0; 24],
    };
    let mut state = next(s);
    for i in 0..6 {
        lot.put_bid(i, wide, state);
        state = next(state);
    }
    if state % 8 != 0 {
        return lot;
    }
    let odd = 100000001 * (state / 8 % 2);
    lot.changed(count, (state / 64 % 24) as usize, odd)
}
