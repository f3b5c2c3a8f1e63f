// The greedy award over plain numbers: a flag and the cents paid for each bid.
// `award` takes a price and w words of cells a bid; what a bid is paid is said where the others have each of the `count` cells.
#![tactic(auto)]

ghost use Rattle.std.specs.Prelude.{◌≡◌, List, ℕ, ◌+◌, ◌*◌, ◌≤◌, length};
ghost use Rattle.cover.specs.Sets.{cells};
ghost use Rattle.cover.specs.Greedy.{wins};
ghost use Rattle.cover.specs.CriticalPrice.{rounds_paid};
ghost use Rattle.cover.specs.Settled.{Settled};
ghost use Rattle.cover.specs.Spare.{Spare};
ghost use Rattle.multi_keys.specs.Tree.{leaves, Tree};
ghost use Rattle.multi_market.specs.Market.{has, Market, Hopping, First};
ghost use Rattle.multi_rounds.specs.Trace.{Trace};
ghost use Rattle.multi_pay.specs.Paying.{Listed, Paid};
ghost use Rattle.multi.specs.Picked.{Picked};

use multi_market::Bids;

// The keys of the bids in `ever`; the others are out.
fn pick(tree: &[u64], ever: &[u64], list: &mut [u64])
    requires { (length tree.now ≡ 2048) × ((length ever.now ≡ 16) × (length list.old ≡ 2048)) }
    ensures { Tree list.new × Picked ever.now (leaves tree.now) (leaves list.new) }
{
    for i in 0..1024 {
        list[1024 + i] = if cells::holds(ever, i) {
            tree[1024 + i]
        } else {
            multi_keys::OUT
        };
    }
    multi_keys::play(list);
}

// The run from all cells open, written down, and the list of the bids in `ever` before its first round. Answers the number of rounds.
fn write(
    bids: Bids,
    ever: &[u64],
    count: usize,
    held: &mut [u64],
    counts: &mut [u64],
    tree: &mut [u64],
    list: &mut [u64],
    run: &mut [u64],
    tape: &mut [u64],
) -> usize
    requires { (length held.old ≡ bids.w) × ((count ≤ 64 * length held.old) × (((3 * count + 3 ≤ length run.old)
        × (2 * count ≤ length tape.old))
        × ((length counts.old ≡ length held.old + 2) × ((length ever.now ≡ 16) × ((length tree.old ≡ 2048)
        × (length list.old ≡ 2048)))))) }
    ensures { Trace (has bids.entry.masks.now (length held.old)) bids.entry.prices.now (length held.old)
        count run.new tape.new result
        × (((h : List ℕ) → First count h → length h ≡ length held.old
        → Listed (has bids.entry.masks.now (length held.old)) bids.entry.prices.now h ever.now
        (leaves list.new))
        × Tree list.new) }
{
    multi_market::unlock(held, count);
    cells_count::count_none(held, counts);
    multi_rounds::enter(bids, held, counts, tree);
    pick(tree, ever, list);
    multi_rounds::trace(bids, count, held, counts, tree, run, tape)
}

// The award into lists with a place for each bid and no more, with room to work lent.
fn settle(
    prices: &[u64],
    masks: &[u64],
    count: usize,
    hop: &mut [u8],
    index: &mut [u64],
    ever: &mut [u64],
    run: &mut [u64],
    tape: &mut [u64],
    held: &mut [u64],
    alt: &mut [u64],
    counts: &mut [u64],
    list: &mut [u64],
    tree: &mut [u64],
    mark: &mut [u64],
    won: &mut [u64],
    cents: &mut [u64],
)
    requires { Market prices.now masks.now (length held.old)
        × ((count ≤ 64 * length held.old) × (((3 * count + 3 ≤ length run.old) × (2 * count ≤ length tape.old))
        × ((length hop.old ≡ length masks.now) × (((316 ≤ length index.old) × (length index.old ≤ 200000))
        × ((length alt.old ≡ length held.old) × ((length counts.old ≡ length held.old + 2)
        × (((length ever.old ≡ 16) × (length mark.old ≡ 16)) × (((length tree.old ≡ 2048) × (length list.old ≡ 2048))
        × ((length prices.now ≡ length won.old) × (length prices.now ≡ length cents.old)))))))))) }
    ensures { Paid (has masks.now (length held.old)) prices.now count won.new
        cents.new }
{
    multi_charts::chart(prices, masks, held.len(), hop);
    let bids = Bids {
        prices,
        masks,
        hop,
        w: held.len(),
    };
    multi_index::enlist(bids, index, ever);
    let rounds = write(bids, ever, count, held, counts, tree, list, run, tape);
    multi_pay::pay_all(
        bids, index, ever, run, tape, count, rounds, held, alt, counts, list, tree, mark, won,
        cents,
    );
}

// The award. Places of `won` and `cents` past the last bid stay.
pub fn award(
    prices: &[u64],
    masks: &[u64],
    w: usize,
    count: usize,
    won: &mut [u64],
    cents: &mut [u64],
)
    requires { Market prices.now masks.now w ×
        ((count ≤ 10080) × ((count ≤ 64 * w) × ((length prices.now ≤ length won.old)
        × (length prices.now ≤ length cents.old)))) }
    ensures { Settled (Spare (has masks.now w) (length prices.now) count)
        (wins (has masks.now w) prices.now (cells count))
        (rounds_paid (has masks.now w) prices.now (cells count))
        prices.now won.old cents.old won.new cents.new }
{
    // Written before they are read: ones are stored in place, zeros by a call of the library.
    let mut hop = [0u8; 158 * tender::MAX_ENTRIES];
    let mut index = [1u64; 44316];
    let mut ever = [1u64; 16];
    let mut run = [1u64; 30243];
    let mut tape = [1u64; 20160];
    let mut held = [1u64; 158];
    let mut alt = [1u64; 158];
    let mut counts = [1u64; 160];
    let mut list = [1u64; 2048];
    let mut tree = [1u64; 2048];
    let mut mark = [1u64; 16];
    let n = prices.len();
    let z = masks.len();
    let u = w + 2;
    settle(
        prices,
        masks,
        count,
        &mut hop[..z],
        &mut index,
        &mut ever,
        &mut run,
        &mut tape,
        &mut held[..w],
        &mut alt[..w],
        &mut counts[..u],
        &mut list,
        &mut tree,
        &mut mark,
        &mut won[..n],
        &mut cents[..n],
    );
}
