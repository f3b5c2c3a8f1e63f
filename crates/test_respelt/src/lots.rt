// Tables as one value: written, and read from a text.
use tender::{Kind, Refusal, Span, Tender};

// A tender, and up to 12 bids and 96 windows.
#[derive(Clone, Copy)]
pub(crate) struct Lot {
    pub(crate) tender: Tender,
    pub(crate) count: usize,
    pub(crate) rows: u64,
    pub(crate) bids: [u64; 48],
    pub(crate) windows: [u64; 192],
}

// A tender of this kind, window and reserve.
pub(crate) fn tender_of(kind: Kind, start: u64, end: u64, reserve: Option<u64>) -> Tender {
    Tender {
        kind,
        window: Span { start, end },
        reserve,
    }
}

// The tables that are read from the text; where it is refused, of a tender that no call takes.
pub(crate) fn read(text: &[u8]) -> Lot {
    let mut bids = [0u64; 48];
    let mut windows = [0u64; 192];
    let (tender, count, rows) = match reader::read(text, &mut bids, &mut windows) {
        Ok(filled) => (filled.tender, filled.bids, filled.windows as u64),
        Err(_) => (tender::plain(Kind::Multi, 0, 0), 0, 0),
    };
    Lot {
        tender,
        count,
        rows,
        bids,
        windows,
    }
}

// A bid of a table: its bidder and price, and its first window and the number of them.
#[derive(Clone, Copy)]
struct Bid {
    bidder: u64,
    price: u64,
    first: u64,
    windows: u64,
}

impl Lot {
    // The tables put into the buffer in one spelling.
    pub(crate) fn written(&self, text: &mut [u8]) -> Result<usize, Refusal> {
        writer::write(self.tender, self.count, &self.bids, &self.windows, text)
    }

    fn bid(&self, j: usize) -> Bid {
        let at = 4 * (j % 12);
        Bid {
            bidder: self.bids[at],
            price: self.bids[at + 1],
            first: self.bids[at + 2],
            windows: self.bids[at + 3],
        }
    }

    // Whether bid j has the same bidder and price in both tables.
    pub(crate) fn has_bidder_of(&self, other: &Lot, j: usize) -> bool {
        let a = self.bid(j);
        let b = other.bid(j);
        a.bidder == b.bidder && a.price == b.price
    }

    // Whether window k holds the minute.
    fn window_holds(&self, k: u64, minute: u64) -> bool {
        let at = 2 * (k % 96) as usize;
        (self.windows[at]..self.windows[at + 1]).contains(&minute)
    }

    // Whether a window of bid j holds the minute.
    pub(crate) fn holds(&self, j: usize, minute: u64) -> bool {
        let bid = self.bid(j);
        (0..bid.windows).any(|k| self.window_holds(bid.first.wrapping_add(k), minute))
    }
}
