// The bid that leads. The bids of one window each are gone through in order of start; of those that reach the cells so far the
// lightest ends the least set that covers them. It leads as long as it reaches the next start; when it no longer does, the bids
// that still reach are looked through once. The lighter of two bids costs less, or as much and its set stands in the tie. A set
// is a row of `w` words; where `w` is 0 there are no sets, costs alone count, and a tie changes nothing.
#![tactic(auto)]

ghost use Rattle.std.specs.Prelude.{◌≡◌, ℕ, ◌+◌, ◌*◌, ◌<◌, ◌≤◌, get_or, length, ltb};
ghost use Rattle.cover.specs.Sets.{value_of};
ghost use Rattle.single_lead.specs.Costs.{cost_in, plus_price};
ghost use Rattle.single_lead.specs.Rows.{set_in, prefer, reached};
ghost use Rattle.single_lead.specs.Live.{counted};
ghost use Rattle.single_lead.specs.Lead.{end_of, Renewed, Led};

mod listed;

pub use listed::Bids;

// No cost: nothing covers. The largest word and no `Option`: lists of costs have it for each cell and bid, where it would take twice the
// memory, and the definitions `cost_in` and `plus_price` speak of such words.
pub const NONE: u64 = 18446744073709551615;

// A cost with one price more.
pub fn add_price(cost: u64, price: u64) -> u64
    requires { (cost ≡ 18446744073709551615 → ⊥) → cost + price < 18446744073709551615 }
    ensures { result ≡ plus_price cost price }
{
    if cost == NONE {
        return cost;
    }
    cost + price
}

// A cost, 0 where there is none.
pub fn whole(cost: u64) -> u64
    ensures { result ≡ value_of (cost_in cost) }
{
    if cost == NONE {
        return 0;
    }
    cost
}

// One bid more where a bid that ends at `end` reaches `t`.
pub fn count(end: u64, t: u64, bids: usize) -> usize
    requires { bids < 1000000 }
    ensures { result ≡ counted end t bids }
{
    if t <= end {
        return bids + 1;
    }
    bids
}

// Where the lead of bid `r` ends; `r` is `n` for none.
fn end_of(ends: &[u64], n: usize, r: usize) -> u64
    requires { (r ≤ n) × (n ≤ length ends.now) }
    ensures { result ≡ end_of ends.now n r }
{
    if r == n {
        return 0;
    }
    ends[r]
}

// The set in row `q` stands in a tie with the set in row `r`: the highest word that tells them apart decides.
fn stands(sets: &[u64], w: usize, q: usize, r: usize) -> bool
    requires { (q * w + w ≤ length sets.now) × (r * w + w ≤ length sets.now) }
    ensures { result ≡ ltb (set_in w sets.now q) (set_in w sets.now r) }
{
    for j in (0..w).rev() {
        let x = sets[q * w + j];
        let y = sets[r * w + j];
        if x < y {
            return true;
        }
        if y < x {
            return false;
        }
    }
    false
}

// Of bids `q` and `r` the lighter.
fn lighter(costs: &[u64], sets: &[u64], w: usize, q: usize, r: usize) -> usize
    requires { (q < length costs.now) × (r < length costs.now) × (q * w + w ≤ length sets.now)
        × (r * w + w ≤ length sets.now) }
    ensures { result ≡ prefer w costs.now sets.now q r }
{
    let x = costs[q];
    let y = costs[r];
    if x < y {
        return q;
    }
    if x == y && stands(sets, w, q, r) {
        return q;
    }
    r
}

// The lighter where bid `q`, from `start` to `end`, reaches `t`.
fn consider(
    start: u64,
    end: u64,
    t: u64,
    costs: &[u64],
    sets: &[u64],
    w: usize,
    q: usize,
    r: usize,
) -> usize
    requires { (q < length costs.now) × (r < length costs.now) × (q * w + w ≤ length sets.now)
        × (r * w + w ≤ length sets.now) }
    ensures { result ≡ reached start end t (prefer w costs.now sets.now q r) r }
{
    if start < t && t <= end {
        return lighter(costs, sets, w, q, r);
    }
    r
}

// The bid that leads, as its row, its cost, the last cell up to which it leads, and how many bids still reach. The row is `n` for none
// and no `Option`: the lists have a row `n`, with no cost and no set, which is compared and read as any other.
#[derive(Clone, Copy)]
pub struct Lead {
    pub row: usize,
    pub cost: u64,
    pub end: u64,
    pub live: usize,
}

// The bids of `live` that reach `t`, moved to the front, and the lightest of those that begin before `t`; row `n` for none.
fn renew(
    starts: &[u64],
    ends: &[u64],
    live: &mut [usize],
    costs: &[u64],
    sets: &[u64],
    w: usize,
    n: usize,
    m: usize,
    t: u64,
) -> Lead
    requires m_in_bounds { (m ≤ length live.old) × (m < 1000000) × (n < length costs.now) × (n ≤ length starts.now)
        × (n ≤ length ends.now) × (n * w + w ≤ length sets.now) }
    requires by_index { (j : ℕ) → j < m → get_or live.old j 0 < n }
    requires n_value { (get_or costs.now n 0 ≡ 18446744073709551615) × (set_in w sets.now n ≡ 0) }
    ensures { Renewed w starts.now ends.now live.old live.new costs.now
        sets.now n t m result.row result.cost result.end result.live }
{
    let mut x: usize = 0;
    let mut r = n;
    for j in 0..m {
        let i = live[j];
        live[x] = i;
        let e = ends[i];
        x = count(e, t, x);
        r = consider(starts[i], e, t, costs, sets, w, i, r);
    }
    Lead {
        row: r,
        cost: costs[r],
        end: end_of(ends, n, r),
        live: x,
    }
}

// The lead for the cells below `t`.
pub fn lead_at(
    starts: &[u64],
    ends: &[u64],
    live: &mut [usize],
    costs: &[u64],
    sets: &[u64],
    w: usize,
    n: usize,
    lead: Lead,
    t: u64,
) -> Lead
    requires live_in_bounds { (lead.live ≤ length live.old) × (lead.live < 1000000) × (n < length costs.now)
        × (n ≤ length starts.now)
        × (n ≤ length ends.now) × (n * w + w ≤ length sets.now) }
    requires by_index { (j : ℕ) → j < lead.live → get_or live.old j 0 < n }
    requires n_value { (get_or costs.now n 0 ≡ 18446744073709551615) × (set_in w sets.now n ≡ 0) }
    ensures { Led w starts.now ends.now live.old live.new costs.now
        sets.now n t lead.row lead.cost lead.end lead.live result.row result.cost result.end result.live }
{
    if t <= lead.end {
        return lead;
    }
    renew(starts, ends, live, costs, sets, w, n, lead.live, t)
}
