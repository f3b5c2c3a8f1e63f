// The run over the bids in order of start: each gets the least cost of a set that ends with it, without one bid.
#![tactic(auto)]

ghost use Rattle.std.specs.Prelude.{◌≡◌, ◌+◌, ◌-◌, ◌<◌, ◌≤◌, get_or, length};
ghost use Rattle.single_run.specs.Run.{entry, Running, Ran};

use single_lead::{Bids, Lead, NONE, add_price, lead_at};

// No sets: costs alone count.
const NO_SETS: [u64; 0] = [];

// The cost of bid `i` where `cost` comes before it; none for the bid that is left out.
fn entry(i: usize, skip: usize, cost: u64, price: u64) -> u64
    requires { (cost ≡ 18446744073709551615 → ⊥) → cost + price < 18446744073709551615 }
    ensures { result ≡ entry i skip cost price }
{
    if i == skip {
        return NONE;
    }
    add_price(cost, price)
}

// The bid at position `q` gets its cost from the lead.
fn step(
    bids: Bids,
    live: &mut [usize],
    costs: &mut [u64],
    skip: usize,
    from: usize,
    q: usize,
    stop: u64,
    lead: Lead,
) -> Lead
    requires room { (length bids.prices.now ≤ length live.old) × (length bids.prices.now < length costs.old) }
    requires q_in_bounds { (q < length bids.prices.now) × (get_or bids.starts.now (get_or bids.order.now q 0) 0 < stop) }
    requires running { Running skip bids.starts.now bids.ends.now bids.prices.now bids.order.now costs.old live.old from q
        lead.live lead.row lead.cost lead.end stop }
    ensures { Running skip bids.entry.starts.now bids.entry.ends.now bids.entry.prices.now bids.entry.order.now costs.new live.new
        from (q + 1) result.live result.row result.cost result.end stop }
{
    let n = bids.prices.len();
    let i = bids.order[q];
    let z = lead_at(
        bids.starts,
        bids.ends,
        live,
        costs,
        &NO_SETS,
        0,
        n,
        lead,
        bids.starts[i],
    );
    costs[i] = entry(i, skip, z.cost, bids.prices[i]);
    live[z.live] = i;
    Lead {
        live: z.live + 1,
        ..z
    }
}

// The costs without bid `skip` of the bids from position `from` on that begin before `stop`: how many bids of `live` reach then.
pub fn run(
    bids: Bids,
    live: &mut [usize],
    costs: &mut [u64],
    skip: usize,
    from: usize,
    len: usize,
    stop: u64,
) -> usize
    requires room { (length bids.prices.now ≤ length live.old) × (length bids.prices.now < length costs.old) }
    requires from_in_bounds { from ≤ length bids.prices.now }
    requires running { Running skip bids.starts.now bids.ends.now bids.prices.now bids.order.now costs.old live.old from from len
        (length bids.prices.now) 0 0 stop }
    ensures { Ran skip bids.entry.starts.now bids.entry.ends.now bids.entry.prices.now bids.entry.order.now costs.new
        live.new from stop result }
{
    let n = bids.prices.len();
    let mut lead = Lead {
        row: n,
        cost: 0,
        end: 0,
        live: len,
    };
    for q in from..n {
        let i = bids.order[q];
        if stop <= bids.starts[i] {
            return lead.live;
        }
        lead = step(bids, live, costs, skip, from, q, stop, lead);
    }
    lead.live
}
