// The price below which a bid of a single tender would win, all else standing, by two runs. The bid is first run at the price 0, at
// which it loses, and then at every price, or is paid its threshold: each price below the threshold wins. Whether the threshold itself
// wins is left to the tie of sets of equal cost, and a selection at that price says it.
#![tactic(auto)]

ghost use Rattle.std.specs.Prelude.{◌≡◌, ℕ, ◌+◌, ◌<◌, ◌≤◌, get_or, set, length};
ghost use Rattle.tender.specs.Limits.{max_entries};
ghost use Rattle.cover.specs.Sets.{bit, covers};
ghost use Rattle.cover.specs.LeastCover.{winners, vcg_paid};
ghost use Rattle.cover.specs.CriticalPrice.{sum};
ghost use Rattle.cover.specs.Settled.{spans, most_cents};
ghost use Rattle.cover.specs.Spare.{Spare};
ghost use Rattle.cover.specs.Winning.{Below};
ghost use Rattle.cover.specs.Intervals.{Order};
ghost use Rattle.single_highest.specs.Runnable.{Runnable};

use single_lead::Bids;

// How a bid fares: whether it wins, and the cents that it is paid.
#[derive(Clone, Copy)]
struct Fate {
    won: bool,
    cents: u64,
}

// How bid `i` fares at these prices.
fn fares(
    starts: &[u64],
    ends: &[u64],
    prices: &[u64],
    order: &[usize],
    cells: u64,
    i: usize,
) -> Fate
    requires { Runnable starts.now ends.now prices.now order.now cells i }
    ensures { (result.won ≡ bit (winners (covers (spans starts.now ends.now)
        (length prices.now) cells) prices.now) i)
        × (result.cents ≡ vcg_paid (covers (spans starts.now ends.now) (length prices.now) cells)
        prices.now i) }
{
    // ones, not zeros: the compiler writes these in wide stores
    let mut won = [1u64; tender::MAX_ENTRIES];
    let mut cents = [1u64; tender::MAX_ENTRIES];
    single::award(starts, ends, prices, order, cells, &mut won, &mut cents);
    Fate {
        won: won[i] == 1,
        cents: cents[i],
    }
}

// Whether bid `i` wins at these prices. A selection alone, without payments.
fn wins(starts: &[u64], ends: &[u64], prices: &[u64], order: &[usize], cells: u64, i: usize) -> bool
    requires { Runnable starts.now ends.now prices.now order.now cells i }
    ensures { result ≡ bit (winners (covers (spans starts.now ends.now)
        (length prices.now) cells) prices.now) i }
{
    // ones, not zeros: the compiler writes these in wide stores
    let mut early = [1u64; tender::MAX_ENTRIES + 1];
    let mut won = [1u64; tender::MAX_ENTRIES];
    let bids = Bids {
        starts,
        ends,
        prices,
        order,
    };
    single_select::winners(bids, cells, &mut early, &mut won);
    won[i] == 1
}

// The price below which bid `i` would win, all else standing; 0 where no price wins. The bids but `i` have every cell, and the prices sum
// to no more than 1,001 of the largest do. The price of bid `i` is overwritten.
pub fn below(
    starts: &[u64],
    ends: &[u64],
    prices: &mut [u64],
    order: &[usize],
    cells: u64,
    i: usize,
) -> u64
    requires prices_len_bound { (length prices.old ≤ max_entries) × (length starts.now ≡ length prices.old)
        × (length ends.now ≡ length prices.old)
        × (0 < cells) × (cells ≤ 10080) }
    requires by_index { (j : ℕ) → j < length prices.old → (get_or starts.now j 0 ≤ get_or ends.now j 0)
        × (get_or ends.now j 0 ≤ cells) }
    requires prices_bound { (sum prices.old ≤ 100100000000) × (i < length prices.old) }
    requires prices_in_bounds { (length prices.old ≤ length order.now)
        × Order (length prices.old) (λ j. get_or starts.now j 0) (λ q. get_or order.now q 0) }
    requires spare { Spare (spans starts.now ends.now) (length prices.old) cells i }
    ensures below { Below (λ q. bit (winners (covers (spans starts.now ends.now)
        (length prices.old) cells) (set prices.old i q)) i) result }
    ensures upper_bound { result ≤ most_cents + 1 }
{
    prices[i] = 0;
    let free = fares(starts, ends, prices, order, cells, i);
    if !free.won {
        return 0;
    }
    prices[i] = free.cents;
    let tie = wins(starts, ends, prices, order, cells, i);
    free.cents + u64::from(tie)
}
