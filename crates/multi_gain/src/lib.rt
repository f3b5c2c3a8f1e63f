// The bids that gain in the run without one bid: those that have a cell which is open there and closed in the main run. `rank` marks one
// bid and enters it with its key; `gain_pairs` does so for all that have an open cell of some pairs.
#![tactic(auto)]

ghost use Rattle.std.specs.Prelude.{◌≡◌, ◌+◌, ◌-◌, ◌*◌, ◌<◌, ◌≤◌, length, set};
ghost use Rattle.cells.specs.Cells.{RangeAdded};
ghost use Rattle.cells_count.specs.Hops.{Counted};
ghost use Rattle.cells_pairs.specs.Pairs.{in_pairs, Paired};
ghost use Rattle.multi_keys.specs.Tree.{leaves, Tree};
ghost use Rattle.multi_market.specs.Market.{has, Market, Hopping};
ghost use Rattle.multi_index.specs.Index.{Indexed};
ghost use Rattle.multi_market.specs.Seats.{key_at};
ghost use Rattle.multi_gain.specs.Gain.{Spread, Gained};

use multi_market::Bids;

// Marks bid b, and enters it with its key.
pub fn rank(
    bids: Bids,
    alt: &[u64],
    counts: &mut [u64],
    tree: &mut [u64],
    mark: &mut [u64],
    b: usize,
)
    requires { (length alt.now ≡ bids.w) × (Counted alt.now counts.old × (Tree tree.old × ((length mark.old ≡ 16)
        × (b < length bids.prices.now)))) }
    ensures { Tree tree.new × ((leaves tree.new
        ≡ set (leaves tree.old) b (key_at (has bids.entry.masks.now (length alt.now)) bids.entry.prices.now
        alt.now b))
        × (RangeAdded b (b + 1) mark.old mark.new × Counted alt.now counts.new)) }
{
    let r = multi_market::overlap(alt, counts, bids.masks, bids.hop, b);
    multi_keys::put(tree, b, multi_keys::key_of(bids.prices[b], r, b));
    cells::add(mark, b);
}

// Marks the bids that have a cell of m in word q.
fn gain(
    bids: Bids,
    index: &[u64],
    alt: &[u64],
    counts: &mut [u64],
    tree: &mut [u64],
    mark: &mut [u64],
    q: usize,
    m: u64,
)
    requires { (length alt.now ≡ bids.w) × (Indexed (length bids.prices.now) bids.masks.now (length alt.now) index.now mark.old
        × (Counted alt.now counts.old
        × (Tree tree.old × ((length mark.old ≡ 16) × (q < length alt.now))))) }
    ensures { Tree tree.new × (Spread bids.entry.prices.now bids.entry.masks.now alt.now q m
        (leaves tree.old) mark.old (leaves tree.new) mark.new
        × Counted alt.now counts.new) }
{
    let mut t = (index[2 * q] / 1024) as usize;
    // a while: t goes on along a chain, not by one
    while 0 < t {
        let x = index[2 * t];
        let b = (x % 1024) as usize;
        if index[2 * t + 1] & m != 0 && !cells::holds(mark, b) {
            rank(bids, alt, counts, tree, mark, b);
        }
        t = (x / 1024) as usize;
    }
}

// Marks the bids that have an open cell of the pairs a up to z.
pub fn gain_pairs(
    bids: Bids,
    index: &[u64],
    pairs: &[u64],
    a: usize,
    z: usize,
    alt: &[u64],
    counts: &mut [u64],
    tree: &mut [u64],
    mark: &mut [u64],
)
    requires { (length alt.now ≡ bids.w) × (Indexed (length bids.prices.now) bids.masks.now (length alt.now) index.now mark.old
        × (Paired pairs.now (length alt.now) a z × (Counted alt.now counts.old
        × (Tree tree.old × (length mark.old ≡ 16))))) }
    ensures { Tree tree.new × (Gained (has bids.entry.masks.now (length alt.now)) bids.entry.prices.now
        alt.now (in_pairs pairs.now a (z - a)) (leaves tree.old) mark.old
        (leaves tree.new) mark.new
        × Counted alt.now counts.new) }
{
    for p in a..z {
        let q = pairs[2 * p] as usize;
        let x = alt[q] & pairs[2 * p + 1];
        if x != 0 {
            gain(bids, index, alt, counts, tree, mark, q, x);
        }
    }
}
