// A faultless tender laid out for the award of its kind: the prices, and the starts and ends or the words of the bids and, where there
// is a reserve, of the house after them; with whether a cell is thin. There are as many entries as `prices` has places. The entries of a
// single tender are put in order of start, once for the cells and the award.
#![tactic(auto)]

ghost use Rattle.std.specs.Prelude.{◌≡◌, ◌+◌, ◌*◌, ◌/◌, ◌≤◌, ◌<◌, length, get_or, set};
ghost use Rattle.tender.specs.declared.Kind.TheVariants.{Single, Multi};
ghost use Rattle.cover.specs.Settled.{spans};
ghost use Rattle.cover.specs.Intervals.{Order};
ghost use Rattle.multi_market.specs.Market.{First};
ghost use Rattle.award_thin.specs.Thin.{Says, Spans};
ghost use Rattle.award_check.specs.Cells.{cells_of};
ghost use Rattle.award_check.specs.Auction.{houses};
ghost use Rattle.award_laid.specs.Lay.{LaidSpans, LaidMasks, named, thin_refusal};

use award_fault::Faultless;
use award_thin::Thin;
use tender::{Refusal, Tender};

// The house at this place, with every cell from the first to the last.
fn put_house(
    at: usize,
    price: u64,
    cells: u64,
    prices: &mut [u64],
    starts: &mut [u64],
    ends: &mut [u64],
)
    requires { (at < length prices.old) × ((at < length starts.old) × (at < length ends.old)) }
    ensures { (prices.new ≡ set prices.old at price)
        × ((starts.new ≡ set starts.old at 0)
        × (ends.new ≡ set ends.old at cells)) }
{
    prices[at] = price;
    starts[at] = 0;
    ends[at] = cells;
}

// The bids put in order of start, and whether a cell is thin.
fn ask(starts: &[u64], ends: &[u64], cells: u64, order: &mut [usize]) -> Result<(), Thin>
    requires { Spans starts.now ends.now cells × ((cells ≤ 10080) × (length starts.now ≤ length order.old)) }
    ensures { Says (spans starts.now ends.now) (length starts.now) cells result
        × Order (length starts.now) (λ i. get_or starts.now i 0) (λ q. get_or order.new q 0) }
{
    let n = starts.len();
    single_order::by_start(starts, n, cells, order);
    award_thin_spans::thin_spans(starts, ends, order, cells as usize)
}

// A single tender as prices, starts and ends, with its entries in order of start.
pub fn lay_spans(
    tables: &Faultless<'_>,
    prices: &mut [u64],
    starts: &mut [u64],
    ends: &mut [u64],
    order: &mut [usize],
) -> Result<(), Thin>
    requires { (tables.now.tender.kind ≡ Single)
        × ((length prices.old ≡ tables.now.count + houses tables.now.tender.reserve)
        × ((length starts.old ≡ tables.now.count + houses tables.now.tender.reserve)
        × ((length ends.old ≡ tables.now.count + houses tables.now.tender.reserve)
        × (tables.now.count + houses tables.now.tender.reserve ≤ length order.old)))) }
    ensures { LaidSpans tables.now.tender tables.now.count tables.now.bids.now tables.now.windows.now prices.new
        starts.new ends.new order.new result }
{
    let tender = tables.tender;
    let count = tables.count;
    let cells = award_layout::cells(tender);
    award_layout::prices(tables.bids, &mut prices[..count]);
    award_layout::spans(
        tender,
        tables.bids,
        tables.windows,
        &mut starts[..count],
        &mut ends[..count],
    );
    match tender.reserve {
        None => ask(starts, ends, cells, order),
        Some(price) => {
            put_house(count, price, cells, prices, starts, ends);
            single_order::by_start(starts, starts.len(), cells, order);
            Ok(())
        }
    }
}

// A multi tender as prices and words, w words an entry.
pub fn lay_masks(
    tables: &Faultless<'_>,
    w: usize,
    prices: &mut [u64],
    masks: &mut [u64],
) -> Result<(), Thin>
    requires { (tables.now.tender.kind ≡ Multi)
        × ((w ≡ (cells_of tables.now.tender + 63) / 64) × ((length prices.old ≡ tables.now.count + houses tables.now.tender.reserve)
        × (length masks.old ≡ w * (tables.now.count + houses tables.now.tender.reserve)))) }
    ensures { LaidMasks tables.now.tender tables.now.count w tables.now.bids.now tables.now.windows.now prices.new
        masks.new result }
{
    let tender = tables.tender;
    let count = tables.count;
    let cells = award_layout::cells(tender);
    let own = w * count;
    award_layout::prices(tables.bids, &mut prices[..count]);
    award_layout::masks(
        tender,
        w,
        count,
        tables.bids,
        tables.windows,
        &mut masks[..own],
    );
    match tender.reserve {
        None => award_thin_masks::thin_masks(masks, w, count, cells as usize),
        Some(price) => {
            prices[count] = price;
            multi_market::unlock(&mut masks[own..], cells as usize);
            Ok(())
        }
    }
}

// Why a tender with a thin cell is refused: 11 for a minute in no bid, 12 for a minute in one bid.
pub fn refusal(tender: Tender, thin: Thin) -> Refusal
    requires { named thin < cells_of tender }
    ensures { result ≡ thin_refusal tender thin }
{
    match thin {
        Thin::Nobody { cell } => Refusal::MinuteUncovered {
            minute: award_layout::minute(tender, cell),
        },
        Thin::Alone { cell } => Refusal::OneBidder {
            minute: award_layout::minute(tender, cell),
        },
    }
}
