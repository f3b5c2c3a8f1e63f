// The single award over plain numbers: bid i has the cells from starts[i] up to ends[i] and asks prices[i]. The winners are the
// covering set of least cost; a winner is paid the least cost without it, less what the other winners ask. The least cost without
// a winner comes from the costs up to its start, the costs from its end on, and the bids that begin in its window.
#![tactic(auto)]

ghost use Rattle.std.specs.Prelude.{◌≡◌, ℕ, ◌+◌, ◌*◌, ◌-◌, ◌<◌, ◌≤◌, get_or, length};
ghost use Rattle.tender.specs.Limits.{max_entries};
ghost use Rattle.cover.specs.Sets.{when, bit, cost, covers};
ghost use Rattle.cover.specs.LeastCover.{winners, vcg_paid};
ghost use Rattle.cover.specs.CriticalPrice.{sum};
ghost use Rattle.cover.specs.Settled.{spans, Settled, FilledTo};
ghost use Rattle.cover.specs.Intervals.{Order};
ghost use Rattle.single_costs.specs.Across.{most_sum, Before, After, Waiting};
ghost use Rattle.single.specs.Pay.{winners_of, vcg_paid_of};

use single_lead::Bids;

// What a bid is paid, and how many bids still reach.
#[derive(Clone, Copy)]
pub struct Paid {
    pub cents: u64,
    pub live: usize,
}

// What the bid at position `q` is paid: `won` says whether it wins, `all` is what the winners ask.
fn pay(
    bids: Bids,
    before: &[u64],
    after: &[u64],
    live: &mut [usize],
    xs: &mut [usize],
    costs: &mut [u64],
    q: usize,
    m: usize,
    won: bool,
    cells: u64,
    all: u64,
) -> Paid
    requires room { (length bids.prices.now ≤ length before.now) × (length bids.prices.now ≤ length after.now)
        × (length bids.prices.now ≤ length live.old) × (length bids.prices.now ≤ length xs.old)
        × (length bids.prices.now < length costs.old) }
    requires q_in_bounds { (q < length bids.prices.now) × (sum bids.prices.now ≤ most_sum) }
    requires won_value { (won ≡ bit (winners_of bids.starts.now bids.ends.now bids.prices.now cells) (get_or bids.order.now q 0))
        × (all ≡ cost bids.prices.now (winners_of bids.starts.now bids.ends.now bids.prices.now cells)) }
    requires by_index { (i : ℕ) → i < length bids.prices.now → (get_or bids.starts.now i 0 ≤ get_or bids.ends.now i 0)
        × (get_or bids.ends.now i 0 ≤ cells) }
    requires before { Before bids.starts.now bids.ends.now bids.prices.now before.now
        × After bids.starts.now bids.ends.now bids.prices.now cells after.now }
    requires waiting { Waiting bids.starts.now bids.ends.now bids.prices.now bids.order.now live.old q m }
    ensures cents_value { result.cents ≡ vcg_paid_of bids.entry.starts.now bids.entry.ends.now bids.entry.prices.now cells
        (get_or bids.entry.order.now q 0) }
    ensures waiting_2 { Waiting bids.entry.starts.now bids.entry.ends.now bids.entry.prices.now bids.entry.order.now live.new q
        result.live }
{
    if !won {
        return Paid { cents: 0, live: m };
    }
    let i = bids.order[q];
    let rest = single_costs::without(bids, before, after, live, xs, costs, q, m, cells);
    let others = all.saturating_sub(bids.prices[i]);
    let cents = rest.cost.saturating_sub(others);
    Paid {
        cents,
        live: rest.live,
    }
}

// What each bid is paid.
fn pay_each(
    bids: Bids,
    before: &[u64],
    after: &[u64],
    live: &mut [usize],
    xs: &mut [usize],
    costs: &mut [u64],
    won: &[u64],
    cents: &mut [u64],
    cells: u64,
    all: u64,
)
    requires room { (length bids.prices.now ≤ length before.now) × (length bids.prices.now ≤ length after.now)
        × (length bids.prices.now ≤ length live.old) × (length bids.prices.now ≤ length xs.old)
        × (length bids.prices.now < length costs.old) }
    requires prices_in_bounds { (length bids.prices.now ≤ length won.now) × (length bids.prices.now ≤ length cents.old)
        × (sum bids.prices.now ≤ most_sum)
        × (all ≡ cost bids.prices.now (winners_of bids.starts.now bids.ends.now bids.prices.now cells)) }
    requires by_index { (i : ℕ) → i < length bids.prices.now
        → get_or won.now i 0 ≡ when (bit (winners_of bids.starts.now bids.ends.now bids.prices.now cells) i) 1 }
    requires by_index_2 { (i : ℕ) → i < length bids.prices.now → (get_or bids.starts.now i 0 ≤ get_or bids.ends.now i 0)
        × (get_or bids.ends.now i 0 ≤ cells) }
    requires before { Before bids.starts.now bids.ends.now bids.prices.now before.now
        × After bids.starts.now bids.ends.now bids.prices.now cells after.now }
    ensures { FilledTo (vcg_paid_of bids.entry.starts.now bids.entry.ends.now bids.entry.prices.now cells) cents.old
        cents.new (length bids.entry.prices.now) }
{
    let n = bids.prices.len();
    let mut m = 0;
    for q in 0..n {
        let i = bids.order[q];
        let z = pay(
            bids,
            before,
            after,
            live,
            xs,
            costs,
            q,
            m,
            won[i] == 1,
            cells,
            all,
        );
        cents[i] = z.cents;
        live[z.live] = i;
        m = z.live + 1;
    }
}

// The payments, with lists of their own to work in.
fn payments(bids: Bids, before: &[u64], won: &[u64], cents: &mut [u64], cells: u64, all: u64)
    requires room { (length bids.prices.now ≤ length before.now) × (cells ≤ 10080) }
    requires prices_in_bounds { (length bids.prices.now ≤ length won.now) × (length bids.prices.now ≤ length cents.old)
        × (sum bids.prices.now ≤ most_sum)
        × (all ≡ cost bids.prices.now (winners_of bids.starts.now bids.ends.now bids.prices.now cells)) }
    requires by_index { (i : ℕ) → i < length bids.prices.now
        → get_or won.now i 0 ≡ when (bit (winners_of bids.starts.now bids.ends.now bids.prices.now cells) i) 1 }
    requires by_index_2 { (i : ℕ) → i < length bids.prices.now → (get_or bids.starts.now i 0 ≤ get_or bids.ends.now i 0)
        × (get_or bids.ends.now i 0 ≤ cells) }
    requires before { Before bids.starts.now bids.ends.now bids.prices.now before.now }
    ensures { FilledTo (vcg_paid_of bids.entry.starts.now bids.entry.ends.now bids.entry.prices.now cells) cents.old
        cents.new (length bids.entry.prices.now) }
{
    // ones, not zeros: the compiler writes these in wide stores
    let mut later = [1u64; tender::MAX_ENTRIES + 1];
    let mut costs = [1u64; tender::MAX_ENTRIES + 1];
    let mut live = [1usize; tender::MAX_ENTRIES];
    let mut xs = [1usize; tender::MAX_ENTRIES];
    single_costs::after(bids, cells, &mut later);
    pay_each(
        bids, before, &later, &mut live, &mut xs, &mut costs, won, cents, cells, all,
    );
}

// The award: a flag and the cents paid for each bid. `order` has the bids in order of start. Places of `won` and `cents` past the last
// bid stay. The flags are 1 and 0 and no `bool`: the list is the one that the caller of the public award lends, and theorems speak of it.
pub fn award(
    starts: &[u64],
    ends: &[u64],
    prices: &[u64],
    order: &[usize],
    cells: u64,
    won: &mut [u64],
    cents: &mut [u64],
)
    requires prices_len_bound { (length prices.now ≤ max_entries) × (length starts.now ≡ length prices.now)
        × (length ends.now ≡ length prices.now)
        × (0 < cells) × (cells ≤ 10080) }
    requires prices_in_bounds { (length prices.now ≤ length won.old) × (length prices.now ≤ length cents.old) }
    requires by_index { (i : ℕ) → i < length prices.now → (get_or starts.now i 0 ≤ get_or ends.now i 0)
        × (get_or ends.now i 0 ≤ cells) }
    requires prices_bound { sum prices.now ≤ most_sum }
    requires prices_in_bounds_2 { (length prices.now ≤ length order.now)
        × Order (length prices.now) (λ i. get_or starts.now i 0) (λ q. get_or order.now q 0) }
    ensures { Settled (λ _. Unit {0}) (λ i. bit (winners (covers (spans starts.now ends.now)
        (length prices.now) cells) prices.now) i) (vcg_paid (covers (spans starts.now ends.now)
        (length prices.now) cells) prices.now) prices.now won.old cents.old
        won.new cents.new }
{
    // ones, not zeros: the compiler writes these in wide stores
    let mut early = [1u64; tender::MAX_ENTRIES + 1];
    let bids = Bids {
        starts,
        ends,
        prices,
        order,
    };
    let all = single_select::winners(bids, cells, &mut early, won);
    payments(bids, &early, won, cents, cells, all);
}
