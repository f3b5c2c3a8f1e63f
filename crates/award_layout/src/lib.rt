// Faultless tables laid out as bids over cells, in plain numbers: the prices, the starts and ends of bids of one window,
// and the words of bids of several windows. Minutes outside the tender are clipped.
#![tactic(auto)]

ghost use Rattle.std.specs.Prelude.{◌≡◌, ℕ, ◌+◌, ◌*◌, ◌/◌, ◌≤◌, ◌<◌, length, get_or, drop, true};
ghost use Rattle.tender.specs.Limits.{max_bids, lawful, every};
ghost use Rattle.tender.specs.Tables.{windows_of, bid_width, window_width};
ghost use Rattle.award_check.specs.Cells.{cells_of, minute_of};
ghost use Rattle.award_check.specs.Auction.{houses};
ghost use Rattle.award_layout.specs.Orderly.{Orderly, clipped, PricesLaid, SpansLaid, Masked, AllMasked};

use cells::MaskTable;
use tender::Tender;

// How many cells a tender has.
#[tactic(auto, unfolding(award_check::specs::Cells::cells_of))]
pub fn cells(tender: Tender) -> u64
    requires { 0 < cells_of tender }
    ensures { result ≡ cells_of tender }
{
    tender.window.end - tender.window.start
}

// The minute of a cell.
#[tactic(auto, unfolding(award_check::specs::Cells::cells_of, award_check::specs::Cells::minute_of))]
pub fn minute(tender: Tender, cell: u64) -> u64
    requires { cell < cells_of tender }
    ensures { result ≡ minute_of tender cell }
{
    tender.window.start + cell
}

// How many entries there are: the bids and, where there is a reserve, the house.
pub fn entries(tender: Tender, count: usize) -> usize
    requires { count ≤ max_bids }
    ensures { result ≡ count + houses tender.reserve }
{
    match tender.reserve {
        None => count,
        Some(_) => count + 1,
    }
}

// The prices of the bids.
pub fn prices(bids: &[u64], out: &mut [u64])
    requires { length out.old ≤ length bids.now / bid_width }
    ensures { PricesLaid (length out.old) bids.now out.new }
{
    for i in 0..out.len() {
        out[i] = bids[tender::BID_WIDTH * i + 1];
    }
}

// The cell of a minute.
fn clip(tender: Tender, minute: u64) -> u64
    requires { 0 < cells_of tender }
    ensures { result ≡ clipped tender minute }
{
    minute
        .saturating_sub(tender.window.start)
        .min(cells(tender))
}

// The starts and ends of bids of one window each.
pub fn spans(tender: Tender, bids: &[u64], windows: &[u64], starts: &mut [u64], ends: &mut [u64])
    requires { Orderly tender (length starts.old) bids.now windows.now
        × ((length ends.old ≡ length starts.old) × (0 < cells_of tender)) }
    ensures { SpansLaid (length starts.old) tender bids.now windows.now starts.new
        ends.new }
{
    for i in 0..starts.len() {
        let j = bids[tender::BID_WIDTH * i + 2] as usize;
        starts[i] = clip(tender, windows[tender::WINDOW_WIDTH * j]);
        ends[i] = clip(tender, windows[tender::WINDOW_WIDTH * j + 1]);
    }
}

// Sets the cells of the windows from `first` on, `count` of them, in words that have none, by the table of masks.
fn add_windows(
    tender: Tender,
    table: &MaskTable,
    windows: &[u64],
    first: usize,
    count: usize,
    words: &mut [u64],
)
    requires { (first + count ≤ length windows.now / window_width)
        × ((every lawful (windows_of count (drop (window_width * first) windows.now)) ≡ true)
        × (((0 < cells_of tender) × (cells_of tender ≤ 64 * length words.old))
        × ((length words.old ≤ 158) × ((i : ℕ) → get_or words.old i 0 ≡ 0)))) }
    ensures { Masked tender (windows_of count (drop (window_width * first) windows.now)) words.new }
{
    for j in 0..count {
        let s = clip(tender, windows[tender::WINDOW_WIDTH * (first + j)]);
        let e = clip(tender, windows[tender::WINDOW_WIDTH * (first + j) + 1]);
        cells::add_range_by(table, words, s as usize, e as usize);
    }
}

// The words of the windows from `first` on, `count` of them.
fn mask_row(
    tender: Tender,
    table: &MaskTable,
    windows: &[u64],
    first: usize,
    count: usize,
    words: &mut [u64],
)
    requires { (first + count ≤ length windows.now / window_width)
        × ((every lawful (windows_of count (drop (window_width * first) windows.now)) ≡ true)
        × (((0 < cells_of tender) × (cells_of tender ≤ 64 * length words.old)) × (length words.old ≤ 158))) }
    ensures { Masked tender (windows_of count (drop (window_width * first) windows.now)) words.new }
{
    cells::clear(words);
    add_windows(tender, table, windows, first, count, words);
}

// The words of each bid, w words a bid, by the table of masks that is lent.
fn masks_by(
    tender: Tender,
    table: &MaskTable,
    w: usize,
    n: usize,
    bids: &[u64],
    windows: &[u64],
    out: &mut [u64],
)
    requires { Orderly tender n bids.now windows.now × ((length out.old ≡ w * n)
        × (((0 < cells_of tender) × (cells_of tender ≤ 64 * w)) × (w ≤ 158))) }
    ensures { AllMasked n tender w bids.now windows.now out.new }
{
    for i in 0..n {
        let first = bids[tender::BID_WIDTH * i + 2] as usize;
        let count = bids[tender::BID_WIDTH * i + 3] as usize;
        let a = w * i;
        let e = a + w;
        mask_row(tender, table, windows, first, count, &mut out[a..e]);
    }
}

// The words of each bid, w words a bid.
pub fn masks(tender: Tender, w: usize, n: usize, bids: &[u64], windows: &[u64], out: &mut [u64])
    requires { Orderly tender n bids.now windows.now × ((length out.old ≡ w * n)
        × (((0 < cells_of tender) × (cells_of tender ≤ 64 * w)) × (w ≤ 158))) }
    ensures { AllMasked n tender w bids.now windows.now out.new }
{
    masks_by(tender, &MaskTable::new(), w, n, bids, windows, out);
}
