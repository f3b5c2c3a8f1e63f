// With which price a bid of a tender of either kind would win if all else stood: `highest_price` answers the largest such price, that not
// even 0 would, or a refusal. `highest_rule` Highest says what is answered.
// The kinds differ in the lists that are lent and in the core that is called, so that one function for both would be no plainer.
#![tactic(auto)]

ghost use Rattle.std.specs.Prelude.{◌≡◌, ℕ, ◌+◌, ◌*◌, ◌/◌, ◌≤◌, ◌<◌, length, get_or};
ghost use Rattle.tender.specs.declared.Kind.TheVariants.{Single, Multi};
ghost use Rattle.tender.specs.Limits.{max_entries};
ghost use Rattle.tender.specs.Tables.{bid_width};
ghost use Rattle.cover.specs.Winning.{one_less};
ghost use Rattle.cover.specs.Settled.{most_cents};
ghost use Rattle.award_check.specs.Cells.{cells_of};
ghost use Rattle.award_check.specs.Auction.{houses};
ghost use Rattle.highest_rule.specs.Highest.{row_with, price_for, highest_of};
ghost use Rattle.highest.specs.Asking.{found_row, SpansAsked, MasksAsked};

use award_fault::Faultless;
use tender::{Kind, Refusal, Tender};

// The row with this bidder number, where there is one.
fn row_with(bids: &[u64], count: usize, bidder: u64) -> Option<usize>
    requires { count ≤ length bids.now / bid_width }
    ensures { found_row result ≡ row_with bids.now count bidder }
{
    for i in (0..count).rev() {
        if bids[tender::BID_WIDTH * i] == bidder {
            return Some(i);
        }
    }
    None
}

// The answer where a bid would win at the prices below this one: the largest of them.
fn told(below: u64) -> Result<Option<u64>, Refusal>
    ensures { result ≡ price_for (one_less below) }
{
    Ok(below.checked_sub(1))
}

// The answer for the bid with this number in a single tender that is laid out and of which no cell is thin.
fn ask_spans(
    tender: Tender,
    count: usize,
    bids: &[u64],
    windows: &[u64],
    bidder: u64,
    prices: &mut [u64],
    starts: &[u64],
    ends: &[u64],
    order: &[usize],
) -> Result<Option<u64>, Refusal>
    requires { SpansAsked tender count bids.now windows.now prices.old starts.now ends.now order.now }
    ensures { result ≡ highest_of tender count bids.now windows.now bidder }
{
    let Some(i) = row_with(bids, count, bidder) else {
        // 17: no bid has that number.
        return Err(Refusal::NoSuchBidder);
    };
    let cells = award_layout::cells(tender);
    told(single_highest::below(starts, ends, prices, order, cells, i))
}

// The same in a multi tender, w words an entry.
fn ask_masks(
    tender: Tender,
    w: usize,
    count: usize,
    bids: &[u64],
    windows: &[u64],
    bidder: u64,
    prices: &[u64],
    masks: &[u64],
) -> Result<Option<u64>, Refusal>
    requires { MasksAsked tender w count bids.now windows.now prices.now masks.now }
    ensures { result ≡ highest_of tender count bids.now windows.now bidder }
{
    let Some(i) = row_with(bids, count, bidder) else {
        // 17: no bid has that number.
        return Err(Refusal::NoSuchBidder);
    };
    let cells = award_layout::cells(tender);
    told(multi_highest::below(prices, masks, w, cells as usize, i))
}

// A faultless single tender. Room for prices, starts and ends of as many entries, and for their order, is lent.
fn single_in(
    tables: &Faultless<'_>,
    bidder: u64,
    prices: &mut [u64],
    starts: &mut [u64],
    ends: &mut [u64],
    order: &mut [usize],
) -> Result<Option<u64>, Refusal>
    requires { (tables.now.tender.kind ≡ Single)
        × ((length prices.old ≡ tables.now.count + houses tables.now.tender.reserve)
        × ((length starts.old ≡ tables.now.count + houses tables.now.tender.reserve)
        × ((length ends.old ≡ tables.now.count + houses tables.now.tender.reserve) × (length prices.old ≤ length order.old)))) }
    ensures { result ≡ highest_of tables.now.tender tables.now.count tables.now.bids.now tables.now.windows.now bidder }
{
    if let Err(thin) = award_laid::lay_spans(tables, prices, starts, ends, order) {
        return Err(award_laid::refusal(tables.tender, thin));
    }
    ask_spans(
        tables.tender,
        tables.count,
        tables.bids,
        tables.windows,
        bidder,
        prices,
        starts,
        ends,
        order,
    )
}

// A faultless single tender.
fn highest_single(tables: &Faultless<'_>, bidder: u64) -> Result<Option<u64>, Refusal>
    requires { tables.now.tender.kind ≡ Single }
    ensures { result ≡ highest_of tables.now.tender tables.now.count tables.now.bids.now tables.now.windows.now bidder }
{
    let entries = award_layout::entries(tables.tender, tables.count);
    let mut prices = [1u64; tender::MAX_ENTRIES];
    let mut starts = [1u64; tender::MAX_ENTRIES];
    let mut ends = [1u64; tender::MAX_ENTRIES];
    let mut order = [1usize; tender::MAX_ENTRIES];
    single_in(
        tables,
        bidder,
        &mut prices[..entries],
        &mut starts[..entries],
        &mut ends[..entries],
        &mut order,
    )
}

// A faultless multi tender. Room for prices and words of as many entries is lent.
fn multi_in(
    tables: &Faultless<'_>,
    w: usize,
    bidder: u64,
    prices: &mut [u64],
    masks: &mut [u64],
) -> Result<Option<u64>, Refusal>
    requires { (tables.now.tender.kind ≡ Multi)
        × ((w ≡ (cells_of tables.now.tender + 63) / 64) × ((length prices.old ≡ tables.now.count + houses tables.now.tender.reserve)
        × (length masks.old ≡ w * (tables.now.count + houses tables.now.tender.reserve)))) }
    ensures { result ≡ highest_of tables.now.tender tables.now.count tables.now.bids.now tables.now.windows.now bidder }
{
    if let Err(thin) = award_laid::lay_masks(tables, w, prices, masks) {
        return Err(award_laid::refusal(tables.tender, thin));
    }
    ask_masks(
        tables.tender,
        w,
        tables.count,
        tables.bids,
        tables.windows,
        bidder,
        prices,
        masks,
    )
}

// A faultless multi tender.
fn highest_multi(tables: &Faultless<'_>, bidder: u64) -> Result<Option<u64>, Refusal>
    requires { tables.now.tender.kind ≡ Multi }
    ensures { result ≡ highest_of tables.now.tender tables.now.count tables.now.bids.now tables.now.windows.now bidder }
{
    let w = (award_layout::cells(tables.tender) as usize + 63) / 64;
    let entries = award_layout::entries(tables.tender, tables.count);
    let all = w * entries;
    let mut prices = [1u64; tender::MAX_ENTRIES];
    let mut masks = [1u64; 158 * tender::MAX_ENTRIES];
    multi_in(tables, w, bidder, &mut prices[..entries], &mut masks[..all])
}

// The answer for the bid with this number in tables that break no rule.
pub fn highest_sound(tables: &Faultless<'_>, bidder: u64) -> Result<Option<u64>, Refusal>
    ensures { result ≡ highest_of tables.now.tender tables.now.count tables.now.bids.now tables.now.windows.now bidder }
{
    match tables.tender.kind {
        Kind::Single => highest_single(tables, bidder),
        Kind::Multi => highest_multi(tables, bidder),
    }
}

// The largest whole price with which the bid with this number would win if all else stood, the limit of prices set aside, or that not
// even 0 would. Refused as by the award of the tender's own kind, but never with 10; then with 17 where no bid has that number.
pub fn highest_price(
    tender: Tender,
    count: usize,
    bids: &[u64],
    windows: &[u64],
    bidder: u64,
) -> Result<Option<u64>, Refusal>
    ensures { result ≡ highest_of tender count bids.now windows.now bidder }
{
    if let Some(row) = award_fault::fault(tender.kind, tender, count, bids, windows) {
        // 9: the tables break a rule.
        return Err(Refusal::BadTables { row });
    }
    let tables = Faultless {
        tender,
        count,
        bids,
        windows,
    };
    highest_sound(&tables, bidder)
}
