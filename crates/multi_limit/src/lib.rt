// What a winner is paid: the highest price at which it is still taken, found by following the run without it along the main run as
// written down. A bid that is not marked comes no earlier than there, so the next bid is the marked one with the least key, or the
// written round's; and what the written round closes is closed by its tape. `limit_in` gives one more than the price for the bid of one
// round, `take` is one round of such a run.
#![tactic(auto)]

ghost use Rattle.std.specs.Prelude.{◌≡◌, false, MatchOption, ◌⊎◌, ℕ, ◌+◌, ◌-◌, ◌*◌, ◌%◌, ◌<◌, ◌≤◌};
ghost use Rattle.std.specs.Prelude.{max, min, length};
ghost use Rattle.cells.specs.Cells.{cell};
ghost use Rattle.cells_count.specs.Hops.{Counted};
ghost use Rattle.cells_pairs.specs.Pairs.{in_pairs, Paired};
ghost use Rattle.multi_keys.specs.Keys.{at, last};
ghost use Rattle.multi_keys.specs.Tree.{leaves, Tree};
ghost use Rattle.multi_market.specs.Market.{has, Market, Hopping};
ghost use Rattle.multi_market.specs.Opens.{open_of};
ghost use Rattle.multi_index.specs.Index.{Indexed};
ghost use Rattle.multi_rounds.specs.Trace.{key_on, bid_on, tape_on};
ghost use Rattle.multi_gain.specs.Gain.{Gained};
ghost use Rattle.multi_limit.specs.Follow.{bar_from, Raised, Following, Alike, Gone, Took, Stepped, Beginning, Limited};

use multi_market::Bids;

// One more than the highest price at which bid k, with `mine` cells, is taken before bid i.
fn raise(k: usize, i: usize, price: u64, cells: u64, mine: u64) -> u64
    requires { (price ≤ 100000000) × ((0 < cells) × ((0 < mine) × (mine ≤ 10112))) }
    ensures { Raised k i price cells mine result }
{
    let x = price * mine;
    if i < k {
        if x == 0 {
            return 0;
        }
        return (x - 1) / cells + 1;
    }
    x / cells + 1
}

// How far the run without a bid has come: the main run's next round, the open cells of the bid, and the highest price so far, with one
// more, at which it would be taken.
#[derive(Clone, Copy)]
pub struct Walk {
    pub bid: usize,
    pub round: usize,
    pub mine: u64,
    pub top: u64,
}

// Takes the bid that leads: closes its cells, and has it out.
pub fn take(
    bids: Bids,
    walk: Walk,
    lead: multi_rounds::Lead,
    next: usize,
    alt: &mut [u64],
    counts: &mut [u64],
    tree: &mut [u64],
) -> Walk
    requires { (length alt.old ≡ bids.w) × (Counted alt.old counts.old × (Tree tree.old × ((lead.key % 1024 < length bids.prices.now)
        × ((walk.bid < length bids.prices.now)
        × ((0 < lead.cells) × ((0 < walk.mine) × ((walk.mine ≤ 10112) × (walk.top ≤ 1011200000001)))))))) }
    ensures { Took (has bids.entry.masks.now (length alt.old)) walk.bid (lead.key % 1024)
        (at bids.entry.prices.now (lead.key % 1024)) lead.cells alt.old (leaves tree.old) alt.new
        (leaves tree.new) walk.mine walk.top result.mine result.top
        × (Tree tree.new × (Counted alt.new counts.new
        × ((result.bid ≡ walk.bid) × (result.round ≡ next)))) }
{
    let k = walk.bid;
    let b = (lead.key % 1024) as usize;
    let s = raise(k, b, bids.prices[b], lead.cells, walk.mine);
    multi_rounds::shut(alt, counts, bids.masks, bids.hop, b);
    multi_keys::put(tree, b, multi_keys::OUT);
    let mine = multi_market::overlap(alt, counts, bids.masks, bids.hop, k);
    Walk {
        bid: k,
        round: next,
        mine,
        top: walk.top.max(s),
    }
}

// The round that the main run comes to where the bid with this key is taken here, and `key` is that of its round g.
fn after(g: usize, key: u64, lead: u64) -> usize
    requires { g ≤ 1000000000000000000 }
    ensures { (result ≡ g) ⊎ ((result ≡ g + 1) × ((key % 1024 ≡ lead % 1024) × (key ≡ last → ⊥))) }
{
    if key != multi_keys::LAST && key % 1024 == lead % 1024 {
        g + 1
    } else {
        g
    }
}

// Whether the bid of round g has no mark, and all cells that it closes in the main run are open.
fn alike(run: &[u64], tape: &[u64], g: usize, alt: &[u64], mark: &[u64]) -> bool
    requires { (3 * g + 5 < length run.now) × ((length mark.now ≡ 16)
        × Paired tape.now (length alt.now) (tape_on run.now g) (tape_on run.now (g + 1))) }
    ensures { Alike run.now tape.now g alt.now mark.now result }
{
    let m = (run[3 * g] % 1024) as usize;
    if cells::holds(mark, m) {
        return false;
    }
    let a = run[3 * g + 2] as usize;
    let z = run[3 * (g + 1) + 2] as usize;
    cells_pairs::all_held(alt, tape, a, z)
}

// Marks bid m, and enters it with its key, unless it is marked.
fn admit(bids: Bids, alt: &[u64], counts: &mut [u64], tree: &mut [u64], mark: &mut [u64], m: usize)
    requires { (length alt.now ≡ bids.w) × (Counted alt.now counts.old × (Tree tree.old × ((length mark.old ≡ 16)
        × (m < length bids.prices.now)))) }
    ensures { Tree tree.new × (Gained (has bids.entry.masks.now (length alt.now)) bids.entry.prices.now
        alt.now (λ x. false) (leaves tree.old) mark.old (leaves tree.new) mark.new
        × ((0 < cell mark.new m) × Counted alt.now counts.new)) }
{
    if cells::holds(mark, m) {
        return;
    }
    multi_gain::rank(bids, alt, counts, tree, mark, m);
}

// The main run alone takes the bid of round g: it is marked, and so are the bids that gain by a cell of it that is open here.
fn pass(
    bids: Bids,
    index: &[u64],
    run: &[u64],
    tape: &[u64],
    g: usize,
    alt: &[u64],
    counts: &mut [u64],
    tree: &mut [u64],
    mark: &mut [u64],
)
    requires { (length alt.now ≡ bids.w) × (Indexed (length bids.prices.now) bids.masks.now (length alt.now) index.now mark.old
        × (Counted alt.now counts.old
        × (Tree tree.old × ((length mark.old ≡ 16) × ((3 * g + 5 < length run.now) × ((bid_on run.now g < length bids.prices.now)
        × Paired tape.now (length alt.now) (tape_on run.now g) (tape_on run.now (g + 1)))))))) }
    ensures { Tree tree.new × (Gained (has bids.entry.masks.now (length alt.now)) bids.entry.prices.now
        alt.now (in_pairs tape.now (tape_on run.now g)
        (tape_on run.now (g + 1) - tape_on run.now g)) (leaves tree.old) mark.old
        (leaves tree.new) mark.new
        × ((0 < cell mark.new (bid_on run.now g)) × Counted alt.now counts.new)) }
{
    let m = (run[3 * g] % 1024) as usize;
    let a = run[3 * g + 2] as usize;
    let z = run[3 * (g + 1) + 2] as usize;
    admit(bids, alt, counts, tree, mark, m);
    multi_gain::gain_pairs(bids, index, tape, a, z, alt, counts, tree, mark);
}

// The rounds of the main run with a key below the cap, which is above no marked bid's: each whose bid is alike is taken here too, up to
// one that is not, which the main run takes alone.
fn along(
    bids: Bids,
    index: &[u64],
    run: &[u64],
    tape: &[u64],
    walk: Walk,
    cap: u64,
    alt: &mut [u64],
    counts: &mut [u64],
    tree: &mut [u64],
    mark: &mut [u64],
) -> Walk
    requires { (length alt.old ≡ bids.w) × (Indexed (length bids.prices.now) bids.masks.now (length alt.old) index.now mark.old
        × (Counted alt.old counts.old
        × (Tree tree.old × ((length mark.old ≡ 16) × ((0 < walk.mine)
        × (Following (has bids.masks.now (length alt.old)) bids.prices.now walk.bid run.now tape.now alt.old (leaves tree.old)
        mark.old
        walk.mine walk.round
        × (((i : ℕ) → i < 1024 → cap ≤ at (leaves tree.old) i)
        × ((cap ≤ last) × (key_on run.now walk.round < cap))))))))) }
    ensures { Gone (has bids.entry.masks.now (length alt.old)) bids.entry.prices.now walk.bid run.now
        tape.now alt.old alt.new (leaves tree.new) mark.new walk.mine walk.top
        walk.round result.round
        × (((result.bid ≡ walk.bid) × ((result.mine ≡ walk.mine) × (result.top ≡ walk.top)))
        × (Tree tree.new × (Counted alt.new counts.new
        × Indexed (length bids.entry.prices.now) bids.entry.masks.now (length alt.old) index.now
        mark.new))) }
{
    let mut g = walk.round;
    // a while: it ends by a key, not after a number of rounds
    while run[3 * g] < cap {
        if alike(run, tape, g, alt, mark) {
            let a = run[3 * g + 2] as usize;
            let z = run[3 * (g + 1) + 2] as usize;
            cells_pairs::close_pairs(alt, counts, tape, a, z);
            g += 1;
        } else {
            pass(bids, index, run, tape, g, alt, counts, tree, mark);
            return Walk {
                round: g + 1,
                ..walk
            };
        }
    }
    Walk { round: g, ..walk }
}

// One step of the run without a bid: None where it is over.
fn step(
    bids: Bids,
    index: &[u64],
    run: &[u64],
    tape: &[u64],
    walk: Walk,
    alt: &mut [u64],
    counts: &mut [u64],
    tree: &mut [u64],
    mark: &mut [u64],
) -> Option<Walk>
    requires { (length alt.old ≡ bids.w) × (Indexed (length bids.prices.now) bids.masks.now (length alt.old) index.now mark.old
        × (Counted alt.old counts.old
        × (Tree tree.old × ((length mark.old ≡ 16) × (((0 < walk.mine) × (walk.top ≤ 1011200000001))
        × Following (has bids.masks.now (length alt.old)) bids.prices.now walk.bid run.now tape.now alt.old (leaves tree.old)
        mark.old
        walk.mine walk.round))))) }
    ensures { MatchOption result
        (bar_from (has bids.entry.masks.now (length alt.old)) bids.entry.prices.now walk.bid (open_of alt.old) ≡ 0)
        (λ next. Stepped (has bids.entry.masks.now (length alt.old)) bids.entry.prices.now walk.bid run.now tape.now alt.old alt.new
        (leaves tree.new) mark.new walk.round walk.top next.round next.mine next.top × (next.bid ≡ walk.bid))
        × (Tree tree.new × (Counted alt.new counts.new
        × Indexed (length bids.entry.prices.now) bids.entry.masks.now (length alt.old) index.now mark.new)) }
{
    let g = walk.round;
    let key = run[3 * g];
    let f = multi_rounds::front(bids, alt, counts, tree, key);
    let first = f.key;
    if first <= key {
        let next = after(g, key, first);
        return Some(take(bids, walk, f, next, alt, counts, tree));
    }
    if key == multi_keys::LAST {
        return None;
    }
    let cap = first.min(multi_keys::LAST);
    Some(along(bids, index, run, tape, walk, cap, alt, counts, tree, mark))
}

// The run without the bid of round h before its first step: the bid is out, and those that share an open cell with it are marked.
fn begin(
    bids: Bids,
    index: &[u64],
    run: &[u64],
    tape: &[u64],
    h: usize,
    alt: &[u64],
    counts: &mut [u64],
    tree: &mut [u64],
    mark: &mut [u64],
) -> Walk
    requires { (length alt.now ≡ bids.w) × (Indexed (length bids.prices.now) bids.masks.now (length alt.now) index.now mark.old
        × (Counted alt.now counts.old
        × (Tree tree.old × ((length mark.old ≡ 16)
        × Beginning (has bids.masks.now (length alt.now)) bids.prices.now run.now tape.now h alt.now (leaves tree.old)
        mark.old)))) }
    ensures { Following (has bids.entry.masks.now (length alt.now)) bids.entry.prices.now (bid_on run.now h)
        run.now tape.now alt.now (leaves tree.new) mark.new result.mine result.round
        × (((result.bid ≡ bid_on run.now h) × (result.top ≡ 0))
        × (Tree tree.new × (Counted alt.now counts.new
        × Indexed (length bids.entry.prices.now) bids.entry.masks.now (length alt.now) index.now
        mark.new))) }
{
    let k = (run[3 * h] % 1024) as usize;
    let a = run[3 * h + 2] as usize;
    let z = run[3 * (h + 1) + 2] as usize;
    cells::add(mark, k);
    multi_gain::gain_pairs(bids, index, tape, a, z, alt, counts, tree, mark);
    Walk {
        bid: k,
        round: h + 1,
        mine: run[3 * h + 1],
        top: 0,
    }
}

// One more than the highest price at which the bid of round h is taken from there on in the run without it.
pub fn limit_in(
    bids: Bids,
    index: &[u64],
    run: &[u64],
    tape: &[u64],
    h: usize,
    alt: &mut [u64],
    counts: &mut [u64],
    tree: &mut [u64],
    mark: &mut [u64],
) -> u64
    requires { (length alt.old ≡ bids.w) × (Indexed (length bids.prices.now) bids.masks.now (length alt.old) index.now mark.old
        × (Counted alt.old counts.old
        × (Tree tree.old × ((length mark.old ≡ 16)
        × Beginning (has bids.masks.now (length alt.old)) bids.prices.now run.now tape.now h alt.old (leaves tree.old)
        mark.old)))) }
    ensures { Limited (has bids.entry.masks.now (length alt.old)) bids.entry.prices.now (bid_on run.now h)
        alt.old result
        × Counted alt.new counts.new }
{
    let mut walk = begin(bids, index, run, tape, h, alt, counts, tree, mark);
    // a while: the run goes on as long as the bid has an open cell, not a number of times
    while 0 < walk.mine {
        let Some(next) = step(bids, index, run, tape, walk, alt, counts, tree, mark) else {
            return walk.top;
        };
        walk = next;
    }
    walk.top
}
