// A row put into a table of bids.
ghost use Rattle.std.specs.Prelude.{◌≡◌, ◌++◌, ◌≤◌, ◌+◌, ◌*◌, length, take, drop};
ghost use Rattle.tender.specs.Tables.{Row, bid_width};
ghost use Rattle.reader_bids.specs.Steps.{row_numbers};

// The numbers of row k: bidder, price, place of the first window, number of windows.
pub(crate) fn put_row(out: &mut [u64], k: usize, bidder: u64, price: u64, first: u64, count: u64)
    requires { bid_width * k + bid_width ≤ length out.old }
    ensures { out.new ≡ take (bid_width * k) out.old
        ++ row_numbers (record { bidder = bidder; price = price; first = first; count = count })
        ++ drop (bid_width * k + bid_width) out.old }
{
    let at = tender::BID_WIDTH * k;
    out[at..at + tender::BID_WIDTH].copy_from_slice(&[bidder, price, first, count]);
}
