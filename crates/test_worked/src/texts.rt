// Long bid texts, put together in fixed memory.
ghost use Rattle.std.specs.Prelude.{◌≤◌};

use std::fmt;
use std::fmt::Write;
use std::ops::Range;

const ROOM: usize = 65537;

// A text, as far as there is room.
#[derive(Clone, Copy)]
pub(crate) struct Text {
    buf: [u8; ROOM],
    length: usize,
    ghost within: { length ≤ 65537 },
}

impl fmt::Write for Text {
    fn write_str(&mut self, s: &str) -> fmt::Result {
        self.put(s);
        Ok(())
    }
}

impl Text {
    // A text that begins so.
    fn new(start: &str) -> Text {
        let mut text = Text {
            buf: [0; ROOM],
            length: 0,
        };
        text.put(start);
        text
    }

    pub(crate) fn bytes(&self) -> &[u8] {
        &self.buf[..self.length]
    }

    // What is written goes on, as far as there is room.
    fn put(&mut self, part: &str) {
        let at = self.length;
        let room = &mut self.buf[at..];
        let n = part.len().min(room.len());
        room[..n].copy_from_slice(&part.as_bytes()[..n]);
        self.length = at + n;
    }

    // A bid's line with so many windows (0 1).
    fn put_bid(&mut self, bidder: u64, price: &str, windows: usize) {
        // `write_str` answers no error.
        let _ = write!(self, "(bid {bidder} {price}");
        for _ in 0..windows {
            self.put(" (0 1)");
        }
        self.put(")\n");
    }

    // The bids of this range, at 5 cents each.
    fn put_bids(&mut self, bidders: Range<u64>, windows: usize) {
        for bidder in bidders {
            self.put_bid(bidder, "5", windows);
        }
    }
}

// One bid with so many windows.
pub(crate) fn windows_of(windows: usize) -> Text {
    let mut text = Text::new("(tender multi 0 10)\n");
    text.put_bid(11, "30", windows);
    text
}

// A single tender with the bids of 1 up to n, without n.
pub(crate) fn bids_below(n: u64) -> Text {
    let mut text = Text::new("(tender single 0 10)\n");
    text.put_bids(1..n, 1);
    text
}

// The same, with the first bidder once more at the end.
pub(crate) fn repeated(n: u64) -> Text {
    let mut text = bids_below(n);
    text.put_bid(1, "5", 1);
    text
}

// The same bids after a reserve line.
pub(crate) fn reserved(n: u64) -> Text {
    let mut text = Text::new("(tender single 0 10)\n(reserve 5000)\n");
    text.put_bids(1..n, 1);
    text
}

// The same bids before a reserve line.
pub(crate) fn reserve_last(n: u64) -> Text {
    let mut text = bids_below(n);
    text.put("(reserve 5000)\n");
    text
}

// 316 bids of 207 bytes between a line of 20 bytes and one of 98 bytes and the price.
pub(crate) fn long_text(price: &str) -> Text {
    let mut text = Text::new("(tender multi 0 10)\n");
    text.put_bids(100001..100317, 32);
    text.put_bid(100317, price, 14);
    text
}
