// A faultless tender of either kind, awarded over lists of its own: 11, 12, or a flag and the cents paid for each entry, and the totals.
// The kinds differ in the lists that are lent and in the core that is called, so that one function for both would be no plainer.
#![tactic(auto)]

ghost use Rattle.std.specs.Prelude.{◌≡◌, ◌+◌, ◌*◌, ◌/◌, ◌≤◌, length};
ghost use Rattle.tender.specs.declared.Kind.TheVariants.{Single, Multi};
ghost use Rattle.tender.specs.Limits.{max_entries};
ghost use Rattle.award_check.specs.Cells.{cells_of};
ghost use Rattle.award_check.specs.Auction.{houses};
ghost use Rattle.award_rule.specs.Award.{award_of};
ghost use Rattle.award_rule.specs.Plain.{told_in};

use award_fault::Faultless;
use tender::{Refusal, Totals};

// A faultless multi tender: flags and cents of all entries. Room for prices and words of as many entries is lent.
fn multi_in(
    tables: &Faultless<'_>,
    w: usize,
    prices: &mut [u64],
    masks: &mut [u64],
    flags: &mut [u64],
    pays: &mut [u64],
) -> Result<Totals, Refusal>
    requires { (tables.now.tender.kind ≡ Multi)
        × ((w ≡ (cells_of tables.now.tender + 63) / 64) × ((length prices.old ≡ tables.now.count + houses tables.now.tender.reserve)
        × ((length masks.old ≡ w * (tables.now.count + houses tables.now.tender.reserve))
        × ((length prices.old ≤ length flags.old) × (length prices.old ≤ length pays.old))))) }
    ensures { told_in tables.now.count flags.new pays.new result
        ≡ award_of Multi tables.now.tender tables.now.count tables.now.bids.now tables.now.windows.now tables.now.count }
{
    if let Err(thin) = award_laid::lay_masks(tables, w, prices, masks) {
        return Err(award_laid::refusal(tables.tender, thin));
    }
    let cells = award_layout::cells(tables.tender);
    multi::award(prices, masks, w, cells as usize, flags, pays);
    Ok(award_plain::totals(prices, flags, pays, tables.count))
}

// A faultless multi tender.
pub fn settle_multi(
    tables: &Faultless<'_>,
    flags: &mut [u64],
    pays: &mut [u64],
) -> Result<Totals, Refusal>
    requires { (tables.now.tender.kind ≡ Multi)
        × ((length flags.old ≡ max_entries) × (length pays.old ≡ max_entries)) }
    ensures { told_in tables.now.count flags.new pays.new result
        ≡ award_of Multi tables.now.tender tables.now.count tables.now.bids.now tables.now.windows.now tables.now.count }
{
    let w = (award_layout::cells(tables.tender) as usize + 63) / 64;
    let entries = award_layout::entries(tables.tender, tables.count);
    let all = w * entries;
    let mut prices = [1u64; tender::MAX_ENTRIES];
    let mut masks = [1u64; 158 * tender::MAX_ENTRIES];
    multi_in(
        tables,
        w,
        &mut prices[..entries],
        &mut masks[..all],
        flags,
        pays,
    )
}

// A faultless single tender: flags and cents of all entries. Room for prices, starts and ends of as many entries, and for their order,
// is lent.
fn single_in(
    tables: &Faultless<'_>,
    prices: &mut [u64],
    starts: &mut [u64],
    ends: &mut [u64],
    order: &mut [usize],
    flags: &mut [u64],
    pays: &mut [u64],
) -> Result<Totals, Refusal>
    requires { (tables.now.tender.kind ≡ Single)
        × ((length prices.old ≡ tables.now.count + houses tables.now.tender.reserve)
        × ((length starts.old ≡ tables.now.count + houses tables.now.tender.reserve)
        × ((length ends.old ≡ tables.now.count + houses tables.now.tender.reserve) × ((length prices.old ≤ length order.old)
        × ((length prices.old ≤ length flags.old) × (length prices.old ≤ length pays.old)))))) }
    ensures { told_in tables.now.count flags.new pays.new result
        ≡ award_of Single tables.now.tender tables.now.count tables.now.bids.now tables.now.windows.now tables.now.count }
{
    if let Err(thin) = award_laid::lay_spans(tables, prices, starts, ends, order) {
        return Err(award_laid::refusal(tables.tender, thin));
    }
    let cells = award_layout::cells(tables.tender);
    single::award(starts, ends, prices, order, cells, flags, pays);
    Ok(award_plain::totals(prices, flags, pays, tables.count))
}

// A faultless single tender.
pub fn settle_single(
    tables: &Faultless<'_>,
    flags: &mut [u64],
    pays: &mut [u64],
) -> Result<Totals, Refusal>
    requires { (tables.now.tender.kind ≡ Single)
        × ((length flags.old ≡ max_entries) × (length pays.old ≡ max_entries)) }
    ensures { told_in tables.now.count flags.new pays.new result
        ≡ award_of Single tables.now.tender tables.now.count tables.now.bids.now tables.now.windows.now tables.now.count }
{
    let entries = award_layout::entries(tables.tender, tables.count);
    let mut prices = [1u64; tender::MAX_ENTRIES];
    let mut starts = [1u64; tender::MAX_ENTRIES];
    let mut ends = [1u64; tender::MAX_ENTRIES];
    let mut order = [1usize; tender::MAX_ENTRIES];
    single_in(
        tables,
        &mut prices[..entries],
        &mut starts[..entries],
        &mut ends[..entries],
        &mut order,
        flags,
        pays,
    )
}
