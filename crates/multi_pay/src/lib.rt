// The bids of the written run, round by round: each gets its flag and its critical price in cents, and its cells are closed.
// The bids that are in no chain of the index take part in every payment: `list` keeps their keys, and a payment begins with a copy.
#![tactic(auto)]

ghost use Rattle.std.specs.Prelude.{◌≡◌, List, ℕ, ◌+◌, ◌-◌, ◌*◌, ◌≤◌, length};
ghost use Rattle.cells_count.specs.Hops.{Counted};
ghost use Rattle.multi_keys.specs.Tree.{leaves, Tree};
ghost use Rattle.multi_market.specs.Market.{has, Market, Hopping, First};
ghost use Rattle.multi_index.specs.Index.{Indexed};
ghost use Rattle.multi_rounds.specs.Trace.{bid_on, Trace};
ghost use Rattle.multi_limit.specs.Follow.{Beginning};
ghost use Rattle.multi_pay.specs.Paying.{Listed, Ready, Payment, Paid};

use multi_market::Bids;

// Copies a tree in four parts: a longer copy is counted byte by byte.
fn copy_tree(from: &[u64], to: &mut [u64])
    requires { (length from.now ≡ 2048) × (length to.old ≡ 2048) }
    ensures { to.new ≡ from.now }
{
    for p in 0..4 {
        let a = 512 * p;
        let e = a + 512;
        to[a..e].copy_from_slice(&from[a..e]);
    }
}

// Has the bid of round h out of the list, brings the list up to date as far as the next round's key, and begins the run without the bid
// with copies.
fn ready(
    bids: Bids,
    ever: &[u64],
    run: &[u64],
    tape: &[u64],
    h: usize,
    held: &[u64],
    counts: &mut [u64],
    list: &mut [u64],
    alt: &mut [u64],
    tree: &mut [u64],
    mark: &mut [u64],
)
    requires { (length held.now ≡ bids.w) × (Ready (has bids.masks.now (length held.now)) bids.prices.now run.now tape.now h held.now
        × (Listed (has bids.masks.now (length held.now)) bids.prices.now held.now ever.now (leaves list.old) × (Tree list.old
        × (Counted held.now counts.old × ((length alt.old ≡ length held.now) × ((length tree.old ≡ 2048)
        × ((length ever.now ≡ 16) × (length mark.old ≡ 16)))))))) }
    ensures { Beginning (has bids.entry.masks.now (length held.now)) bids.entry.prices.now run.now
        tape.now h alt.new (leaves tree.new) mark.new
        × ((alt.new ≡ held.now) × ((mark.new ≡ ever.now) × ((tree.new ≡ list.new)
        × (Tree list.new × Counted held.now counts.new)))) }
{
    let k = (run[3 * h] % 1024) as usize;
    multi_keys::put(list, k, multi_keys::OUT);
    multi_rounds::front(bids, held, counts, list, run[3 * (h + 1)]);
    copy_tree(list, tree);
    alt.copy_from_slice(held);
    mark.copy_from_slice(ever);
}

// Marks and pays the bid of round h, and closes its cells.
fn pay(
    bids: Bids,
    index: &[u64],
    ever: &[u64],
    run: &[u64],
    tape: &[u64],
    h: usize,
    held: &mut [u64],
    alt: &mut [u64],
    counts: &mut [u64],
    list: &mut [u64],
    tree: &mut [u64],
    mark: &mut [u64],
    won: &mut [u64],
    cents: &mut [u64],
)
    requires { (length held.old ≡ bids.w) × (Indexed (length bids.prices.now) bids.masks.now (length held.old) index.now ever.now
        × (Ready (has bids.masks.now (length held.old)) bids.prices.now run.now tape.now h held.old
        × (Listed (has bids.masks.now (length held.old)) bids.prices.now held.old ever.now (leaves list.old) × (Tree list.old
        × (Counted held.old counts.old × (((length alt.old ≡ length held.old) × ((length tree.old ≡ 2048)
        × ((length ever.now ≡ 16) × (length mark.old ≡ 16)))) × ((length bids.prices.now ≡ length won.old)
        × (length bids.prices.now ≡ length cents.old)))))))) }
    ensures { Payment (has bids.entry.masks.now (length held.old)) bids.entry.prices.now (bid_on run.now h)
        held.old won.old cents.old held.new won.new cents.new
        × (Listed (has bids.entry.masks.now (length held.old)) bids.entry.prices.now held.new ever.now
        (leaves list.new)
        × (Tree list.new × Counted held.new counts.new)) }
{
    let k = (run[3 * h] % 1024) as usize;
    let a = run[3 * h + 2] as usize;
    let z = run[3 * (h + 1) + 2] as usize;
    ready(
        bids, ever, run, tape, h, held, counts, list, alt, tree, mark,
    );
    let t = multi_limit::limit_in(bids, index, run, tape, h, alt, counts, tree, mark);
    won[k] = 1;
    cents[k] = t.saturating_sub(1);
    cells_count::count_none(held, counts);
    cells_pairs::close_pairs(held, counts, tape, a, z);
}

// Marks and pays the bid of each round, from all cells open. `won` and `cents` are the plain lists that the public settlement fills.
pub fn pay_all(
    bids: Bids,
    index: &[u64],
    ever: &[u64],
    run: &[u64],
    tape: &[u64],
    count: usize,
    rounds: usize,
    held: &mut [u64],
    alt: &mut [u64],
    counts: &mut [u64],
    list: &mut [u64],
    tree: &mut [u64],
    mark: &mut [u64],
    won: &mut [u64],
    cents: &mut [u64],
)
    requires { (length held.old ≡ bids.w) × (Indexed (length bids.prices.now) bids.masks.now (length held.old) index.now ever.now
        × (Trace (has bids.masks.now (length held.old)) bids.prices.now (length held.old) count run.now tape.now rounds
        × (((h : List ℕ) → First count h → length h ≡ length held.old
        → Listed (has bids.masks.now (length held.old)) bids.prices.now h ever.now (leaves list.old)) × (Tree list.old
        × ((count ≤ 64 * length held.old) × (((length alt.old ≡ length held.old) × ((length tree.old ≡ 2048)
        × ((length ever.now ≡ 16) × ((length mark.old ≡ 16) × (length counts.old ≡ length held.old + 2)))))
        × ((length bids.prices.now ≡ length won.old) × (length bids.prices.now ≡ length cents.old)))))))) }
    ensures { Paid (has bids.entry.masks.now (length held.old)) bids.entry.prices.now count won.new
        cents.new }
{
    multi_market::unlock(held, count);
    cells_count::count_none(held, counts);
    cells::clear(won);
    cells::clear(cents);
    for h in 0..rounds {
        pay(
            bids, index, ever, run, tape, h, held, alt, counts, list, tree, mark, won, cents,
        );
    }
}
