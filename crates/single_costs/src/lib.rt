// Least costs of covering without a bid, for the payments of a single tender. A run over the bids in order of start gives each
// bid the least cost of a set that ends with it; it serves for the costs from the end of each bid on, with the bids seen from the
// other end, and for the bids that begin in a winner's window, once more and without that winner. The least cost comes from the
// bid that leads.
#![tactic(auto)]

ghost use Rattle.std.specs.Prelude.{◌≡◌, ℕ, ◌+◌, ◌-◌, ◌<◌, ◌≤◌, get_or, length};
ghost use Rattle.cover.specs.Sets.{value_of};
ghost use Rattle.cover.specs.CriticalPrice.{sum};
ghost use Rattle.cover.specs.Intervals.Bids.{cost_without, Mirrored};
ghost use Rattle.single_lead.specs.Costs.{cost_in};
ghost use Rattle.single_costs.specs.Across.{most_sum, joined_cost, less_of, least_across, Before, After, Waiting, BegunAt};

use single_lead::{Bids, NONE, count, whole};
use single_run::run;

// The cost across a bid of price `price`: `x` is its cost with what comes before it, `y` with what comes after it.
fn join(x: u64, y: u64, price: u64) -> u64
    requires x_le_most_sum { (x ≡ 18446744073709551615 → ⊥) → x ≤ most_sum }
    requires price_le_y { (y ≡ 18446744073709551615 → ⊥) → (price ≤ y) × (y ≤ most_sum + price) }
    ensures { result ≡ joined_cost x y price }
{
    if x == NONE {
        return x;
    }
    if y == NONE {
        return y;
    }
    x + (y - price)
}

// The lesser of `x` and `r` where a bid from `start` to `end` reaches `t`, else `r`.
fn lower(start: u64, end: u64, t: u64, x: u64, r: u64) -> u64
    ensures { result ≡ less_of start end t x r }
{
    if start < t && t <= end && x < r {
        return x;
    }
    r
}

// The least cost across a bid of `live` that has the cell before `t`.
fn least_across(bids: Bids, live: &[usize], costs: &[u64], after: &[u64], m: usize, t: u64) -> u64
    requires m_in_bounds { (m ≤ length live.now) × (length bids.prices.now ≤ length costs.now)
        × (length bids.prices.now ≤ length after.now) }
    requires by_index { (j : ℕ) → j < m → get_or live.now j 0 < length bids.prices.now }
    requires by_index_2 { (j : ℕ) → j < m → (get_or costs.now (get_or live.now j 0) 0 ≡ 18446744073709551615 → ⊥)
        → get_or costs.now (get_or live.now j 0) 0 ≤ most_sum }
    requires by_index_3 { (i : ℕ) → i < length bids.prices.now → (get_or after.now i 0 ≡ 18446744073709551615 → ⊥)
        → (get_or bids.prices.now i 0 ≤ get_or after.now i 0)
        × (get_or after.now i 0 ≤ most_sum + get_or bids.prices.now i 0) }
    ensures { cost_in result ≡ least_across bids.entry.starts.now bids.entry.ends.now bids.entry.prices.now live.now
        costs.now after.now t m }
{
    let mut r = NONE;
    for j in 0..m {
        let i = live[j];
        let x = join(costs[i], after[i], bids.prices[i]);
        r = lower(bids.starts[i], bids.ends[i], t, x, r);
    }
    r
}

// The bids of `live` that reach `t`, moved to the front and copied to `xs`, with their costs from `before`: their number.
fn begin(
    ends: &[u64],
    live: &mut [usize],
    before: &[u64],
    xs: &mut [usize],
    costs: &mut [u64],
    m: usize,
    t: u64,
) -> usize
    requires m_in_bounds { (m ≤ length live.old) × (m ≤ length xs.old) × (m < 1000000) }
    requires by_index { (j : ℕ) → j < m → (get_or live.old j 0 < length ends.now) × (get_or live.old j 0 < length before.now)
        × (get_or live.old j 0 < length costs.old) }
    ensures { BegunAt ends.now live.old live.new before.now xs.new
        costs.new t m result }
{
    let mut x = 0;
    for j in 0..m {
        let i = live[j];
        live[x] = i;
        xs[x] = i;
        costs[i] = before[i];
        x = count(ends[i], t, x);
    }
    x
}

// The least cost without a bid, and how many bids reach its start.
#[derive(Clone, Copy)]
pub struct Rest {
    pub cost: u64,
    pub live: usize,
}

// The least cost of all the cells without the bid at position `q`, 0 where there is none.
pub fn without(
    bids: Bids,
    before: &[u64],
    after: &[u64],
    live: &mut [usize],
    xs: &mut [usize],
    costs: &mut [u64],
    q: usize,
    m: usize,
    cells: u64,
) -> Rest
    requires room { (length bids.prices.now ≤ length before.now) × (length bids.prices.now ≤ length after.now)
        × (length bids.prices.now ≤ length live.old) × (length bids.prices.now ≤ length xs.old)
        × (length bids.prices.now < length costs.old) }
    requires q_in_bounds { (q < length bids.prices.now) × (sum bids.prices.now ≤ most_sum)
        × (0 < get_or bids.ends.now (get_or bids.order.now q 0) 0) }
    requires by_index { (i : ℕ) → i < length bids.prices.now → (get_or bids.starts.now i 0 ≤ get_or bids.ends.now i 0)
        × (get_or bids.ends.now i 0 ≤ cells) }
    requires before { Before bids.starts.now bids.ends.now bids.prices.now before.now
        × After bids.starts.now bids.ends.now bids.prices.now cells after.now }
    requires waiting { Waiting bids.starts.now bids.ends.now bids.prices.now bids.order.now live.old q m }
    ensures cost_value { result.cost ≡ value_of (cost_without (get_or bids.entry.order.now q 0) bids.entry.starts.now
        bids.entry.ends.now bids.entry.prices.now cells) }
    ensures waiting_2 { Waiting bids.entry.starts.now bids.entry.ends.now bids.entry.prices.now bids.entry.order.now live.new q
        result.live }
{
    let n = bids.prices.len();
    let k = bids.order[q];
    let len = begin(bids.ends, live, before, xs, costs, m, bids.starts[k]);
    costs[k] = NONE;
    costs[n] = NONE;
    xs[len] = k;
    let t = bids.ends[k];
    let size = run(bids, xs, costs, k, q + 1, len + 1, t);
    let cost = whole(least_across(bids, xs, costs, after, size, t));
    Rest { cost, live: len }
}

// The bids seen from the other end.
fn mirror(starts: &[u64], ends: &[u64], n: usize, cells: u64, x: &mut [u64], y: &mut [u64])
    requires n_in_bounds { (n ≤ length starts.now) × (n ≤ length ends.now) × (n ≤ length x.old) × (n ≤ length y.old) }
    requires by_index { (i : ℕ) → i < n → (get_or starts.now i 0 ≤ get_or ends.now i 0) × (get_or ends.now i 0 ≤ cells) }
    ensures { Mirrored starts.now ends.now x.new y.new cells n }
{
    for i in 0..n {
        x[i] = cells - ends[i];
        y[i] = cells - starts[i];
    }
}

// The cost of each bid with what comes after it.
pub fn after(bids: Bids, cells: u64, costs: &mut [u64])
    requires room { length bids.prices.now < length costs.old }
    requires cells_bound { cells ≤ 10080 }
    requires by_index { (i : ℕ) → i < length bids.prices.now → (get_or bids.starts.now i 0 ≤ get_or bids.ends.now i 0)
        × (get_or bids.ends.now i 0 ≤ cells) }
    ensures { After bids.entry.starts.now bids.entry.ends.now bids.entry.prices.now cells costs.new }
{
    // ones, not zeros: the compiler writes these in wide stores
    let mut x = [1u64; tender::MAX_ENTRIES];
    let mut y = [1u64; tender::MAX_ENTRIES];
    let mut order = [1usize; tender::MAX_ENTRIES];
    let mut live = [1usize; tender::MAX_ENTRIES];
    let n = bids.prices.len();
    mirror(bids.starts, bids.ends, n, cells, &mut x, &mut y);
    single_order::by_start(&x, n, cells, &mut order);
    costs[n] = NONE;
    let mirrored = Bids {
        starts: &x,
        ends: &y,
        prices: bids.prices,
        order: &order,
    };
    run(mirrored, &mut live, costs, n, 0, 0, cells + 1);
}
