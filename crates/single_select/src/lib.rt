// The winners of a single tender: the covering set of least cost, and of two such sets the one without the latest-entered bid
// that tells them apart. The bids are gone through in order of start. A bid's weight is the least cost of a set that ends with it
// and covers every cell below its end, and that set as a row of 64-bit words, bid i its bit i; it comes from the bid that leads.
#![tactic(auto)]

ghost use Rattle.std.specs.Prelude.{◌≡◌, ℕ, ◌+◌, ◌*◌, ◌-◌, ◌/◌, ◌<◌, ◌≤◌, get_or, length};
ghost use Rattle.single_lead.specs.Rows.{set_in};
ghost use Rattle.single_select.specs.Weighing.{Weighing, Weighed, Selected};

mod rows;

use rows::{clear, extend, mark};
use single_lead::{Bids, Lead, NONE, add_price, lead_at, whole};

// The bid at position `k` gets its weight from the lead.
fn step(
    bids: Bids,
    live: &mut [usize],
    costs: &mut [u64],
    sets: &mut [u64],
    k: usize,
    lead: Lead,
) -> Lead
    requires room { (length bids.prices.now ≤ length live.old) × (length bids.prices.now < length costs.old)
        × (length bids.prices.now * 16 + 16 ≤ length sets.old) }
    requires k_in_bounds { k < length bids.prices.now }
    requires weighing { Weighing bids.starts.now bids.ends.now bids.prices.now bids.order.now costs.old sets.old live.old k
        lead.live lead.row lead.cost lead.end }
    ensures { Weighing bids.entry.starts.now bids.entry.ends.now bids.entry.prices.now bids.entry.order.now costs.new sets.new
        live.new (k + 1) result.live result.row result.cost result.end }
{
    let n = bids.prices.len();
    let i = bids.order[k];
    let z = lead_at(
        bids.starts,
        bids.ends,
        live,
        costs,
        sets,
        16,
        n,
        lead,
        bids.starts[i],
    );
    extend(sets, z.row, i);
    costs[i] = add_price(z.cost, bids.prices[i]);
    live[z.live] = i;
    Lead {
        live: z.live + 1,
        ..z
    }
}

// Each bid's weight, in order of start; the lead for all the cells at the end.
fn weigh(bids: Bids, cells: u64, live: &mut [usize], costs: &mut [u64], sets: &mut [u64]) -> Lead
    requires room { (length bids.prices.now ≤ length live.old) × (length bids.prices.now < length costs.old)
        × (length bids.prices.now * 16 + 16 ≤ length sets.old) }
    requires no_bids { set_in 16 sets.old (length bids.prices.now) ≡ 0 }
    requires by_index { (i : ℕ) → i < length bids.prices.now → get_or bids.starts.now i 0 ≤ cells }
    ensures { Weighed bids.entry.starts.now bids.entry.ends.now bids.entry.prices.now costs.new sets.new cells
        result.row result.cost }
{
    let n = bids.prices.len();
    costs[n] = NONE;
    let mut lead = Lead {
        row: n,
        cost: 0,
        end: 0,
        live: 0,
    };
    for k in 0..n {
        lead = step(bids, live, costs, sets, k, lead);
    }
    lead_at(
        bids.starts,
        bids.ends,
        live,
        costs,
        sets,
        16,
        n,
        lead,
        cells,
    )
}

// The winners' flags, the cost of each bid with what comes before it, and the winners' cost.
pub fn winners(bids: Bids, cells: u64, costs: &mut [u64], won: &mut [u64]) -> u64
    requires room { (length bids.prices.now < length costs.old) × (length bids.prices.now ≤ length won.old) }
    requires by_index { (i : ℕ) → i < length bids.prices.now → get_or bids.starts.now i 0 ≤ cells }
    ensures { Selected bids.entry.starts.now bids.entry.ends.now bids.entry.prices.now costs.new won.old won.new cells result }
{
    // ones, not zeros: the compiler writes these in wide stores
    let mut live = [1usize; tender::MAX_ENTRIES];
    let mut sets = [1u64; 16 * (tender::MAX_ENTRIES + 1)];
    let n = bids.prices.len();
    clear(&mut sets, n);
    let lead = weigh(bids, cells, &mut live, costs, &mut sets);
    mark(&sets, lead.row, n, won);
    whole(lead.cost)
}
