// The price below which one bid of a multi tender would win, all else standing. `below` makes one greedy run without the bid; in each
// round it finds the prices at which the bid is taken before the round's, and answers one more than the highest of them.
#![tactic(auto)]

ghost use Rattle.std.specs.Prelude.{◌≡◌, ◌+◌, ◌*◌, ◌<◌, ◌≤◌, length};
ghost use Rattle.tender.specs.Limits.{max_entries};
ghost use Rattle.cover.specs.Sets.{cells};
ghost use Rattle.cover.specs.CriticalPrice.{limit};
ghost use Rattle.cells_count.specs.Hops.{Counted};
ghost use Rattle.multi_keys.specs.Tree.{leaves, Tree};
ghost use Rattle.multi_market.specs.Market.{has, Market, Hopping};
ghost use Rattle.multi_highest.specs.Rounding.{Rounding, LimitIs};

use multi_limit::Walk;
use multi_market::Bids;

// The run without bid k before its first round: the first cells open, and each bid but k entered.
fn begin(
    bids: Bids,
    count: usize,
    k: usize,
    held: &mut [u64],
    counts: &mut [u64],
    tree: &mut [u64],
) -> Walk
    requires { (length held.old ≡ bids.w) × ((count ≤ 64 * length held.old) × ((k < length bids.prices.now)
        × ((length counts.old ≡ length held.old + 2)
        × (length tree.old ≡ 2048)))) }
    ensures { Rounding (has bids.entry.masks.now (length held.old)) bids.entry.prices.now count k held.new
        (leaves tree.new) result.mine result.top
        × ((result.bid ≡ k) × (Tree tree.new × Counted held.new counts.new)) }
{
    multi_market::unlock(held, count);
    cells_count::count_none(held, counts);
    multi_rounds::enter(bids, held, counts, tree);
    let mine = multi_market::overlap(held, counts, bids.masks, bids.hop, k);
    multi_keys::put(tree, k, multi_keys::OUT);
    Walk {
        bid: k,
        round: 0,
        mine,
        top: 0,
    }
}

// The rounds of the run without bid k, as long as k has an open cell. Answers the maximum over them.
fn rounds(
    bids: Bids,
    count: usize,
    k: usize,
    held: &mut [u64],
    counts: &mut [u64],
    tree: &mut [u64],
) -> u64
    requires { (length held.old ≡ bids.w) × ((count ≤ 64 * length held.old) × ((k < length bids.prices.now)
        × ((length counts.old ≡ length held.old + 2)
        × (length tree.old ≡ 2048)))) }
    ensures { LimitIs (has bids.entry.masks.now (length held.old)) bids.entry.prices.now count k result }
{
    let mut walk = begin(bids, count, k, held, counts, tree);
    // a while: the run goes on as long as k has an open cell, not a number of times
    while 0 < walk.mine {
        let f = multi_rounds::front(bids, held, counts, tree, multi_keys::LAST);
        if multi_keys::LAST < f.key {
            return walk.top;
        }
        walk = multi_limit::take(bids, walk, f, 0, held, counts, tree);
    }
    walk.top
}

// The price, with room lent for 1,001 bids of 158 words.
fn below_in(
    prices: &[u64],
    masks: &[u64],
    w: usize,
    count: usize,
    k: usize,
    hop: &mut [u8],
    held: &mut [u64],
    counts: &mut [u64],
    tree: &mut [u64],
) -> u64
    requires { Market prices.now masks.now w × ((count ≤ 64 * w) × ((k < length prices.now)
        × ((length hop.old ≡ length masks.now) × ((length held.old ≡ w) × ((length counts.old ≡ w + 2)
        × (length tree.old ≡ 2048)))))) }
    ensures { LimitIs (has masks.now w) prices.now count k result }
{
    multi_charts::chart(prices, masks, w, hop);
    let bids = Bids {
        prices,
        masks,
        hop,
        w,
    };
    rounds(bids, count, k, held, counts, tree)
}

// The price below which bid k would win, all else standing: the run without it, and in each round the prices at which k is taken before
// the round's bid. 0 where no price wins.
pub fn below(prices: &[u64], masks: &[u64], w: usize, count: usize, k: usize) -> u64
    requires { Market prices.now masks.now w × ((count ≤ 10080) × ((count ≤ 64 * w) × (k < length prices.now))) }
    ensures { (result ≡ limit (has masks.now w) prices.now (cells count) k) × (result ≤ 1011200000001) }
{
    // Written before they are read: ones are stored in place, zeros by a call of the library.
    let mut hop = [0u8; 158 * tender::MAX_ENTRIES];
    let mut held = [1u64; 158];
    let mut counts = [1u64; 160];
    let mut tree = [1u64; 2048];
    let z = masks.len();
    let u = w + 2;
    below_in(
        prices,
        masks,
        w,
        count,
        k,
        &mut hop[..z],
        &mut held[..w],
        &mut counts[..u],
        &mut tree,
    )
}
