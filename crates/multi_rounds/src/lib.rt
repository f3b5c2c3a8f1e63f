// The rounds of the greedy cover over plain numbers: which bid comes first, and the whole run written down.
// `front` gives the least key of the bids in a tree, counting bids anew until it is not stale or above a cap; `trace` writes the rounds
// down, and the cells that each closes on a tape. `shut` and `cut` close and write down a bid's cells among those held.
#![tactic(auto)]

ghost use Rattle.std.specs.Prelude.{◌≡◌, ◌+◌, ◌*◌, ◌<◌, ◌≤◌, length};
ghost use Rattle.cover.specs.Greedy.{reach};
ghost use Rattle.cells_count.specs.Hops.{Hops, Counted};
ghost use Rattle.cells_pairs.specs.Pairs.{Shut, Cut};
ghost use Rattle.multi_keys.specs.Keys.{last};
ghost use Rattle.multi_keys.specs.Tree.{leaves, Tree};
ghost use Rattle.multi_market.specs.Opens.{open_of};
ghost use Rattle.multi_market.specs.Market.{word_row, has, Market, Hopping, First};
ghost use Rattle.multi_market.specs.Seats.{Seats, Fronted, Entered};
ghost use Rattle.multi_rounds.specs.Trace.{Trace};

use multi_market::Bids;

// Closes the cells of bid i.
pub fn shut(held: &mut [u64], counts: &mut [u64], masks: &[u64], hop: &[u8], i: usize)
    requires { (length held.old ≤ 158) × ((length held.old * i + length held.old ≤ length masks.now)
        × ((length hop.now ≡ length masks.now) × (Counted held.old counts.old
        × Hops (word_row masks.now (length held.old) i) (word_row hop.now (length held.old) i)))) }
    ensures { Shut held.old (has masks.now (length held.old) i) held.new
        × Counted held.new counts.new }
{
    let w = held.len();
    let a = w * i;
    let e = a + w;
    cells_count::close_counted(held, counts, &masks[a..e], &hop[a..e]);
}

// Writes the cells held that bid i has as pairs from `at` on. Answers the place after them.
pub fn cut(held: &[u64], masks: &[u64], hop: &[u8], i: usize, tape: &mut [u64], at: usize) -> usize
    requires { (length held.now ≤ 158) × ((length held.now * i + length held.now ≤ length masks.now)
        × ((length hop.now ≡ length masks.now)
        × (Hops (word_row masks.now (length held.now) i) (word_row hop.now (length held.now) i)
        × ((2 * (at + reach (has masks.now (length held.now) i) (open_of held.now)) ≤ length tape.old) × (at ≤ 10112))))) }
    ensures { Cut held.now (word_row masks.now (length held.now) i) tape.old
        tape.new at result }
{
    let w = held.len();
    let a = w * i;
    let e = a + w;
    cells_pairs::cut(held, &masks[a..e], &hop[a..e], tape, at)
}

// A key, and the cells that its bid reaches. No Option: the key is used also where it is above the cap, and the cells are 0 there.
#[derive(Clone, Copy)]
pub struct Lead {
    pub key: u64,
    pub cells: u64,
}

// The least key. Bids are counted anew until it is above the cap, or its bid's own.
pub fn front(bids: Bids, held: &[u64], counts: &mut [u64], tree: &mut [u64], cap: u64) -> Lead
    requires { (length held.now ≡ bids.w) × (Counted held.now counts.old × (Tree tree.old
        × (Seats (has bids.masks.now (length held.now)) bids.prices.now held.now (leaves tree.old) × (cap ≤ last)))) }
    ensures { Tree tree.new
        × (Fronted (has bids.entry.masks.now (length held.now)) bids.entry.prices.now held.now
        (leaves tree.old) (leaves tree.new) cap result.key result.cells
        × Counted held.now counts.new) }
{
    // a loop: it goes on as long as the least key is stale, not a number of times
    loop {
        let c = tree[1];
        if cap < c {
            return Lead { key: c, cells: 0 };
        }
        let b = (c % 1024) as usize;
        let r = multi_market::overlap(held, counts, bids.masks, bids.hop, b);
        let now = multi_keys::key_of(bids.prices[b], r, b);
        if now == c {
            return Lead { key: c, cells: r };
        }
        multi_keys::put(tree, b, now);
    }
}

// Enters each bid with its key.
pub fn enter(bids: Bids, held: &[u64], counts: &mut [u64], tree: &mut [u64])
    requires { (length held.now ≡ bids.w) × (Counted held.now counts.old × (length tree.old ≡ 2048)) }
    ensures { Tree tree.new
        × (Entered (has bids.entry.masks.now (length held.now)) bids.entry.prices.now held.now
        (leaves tree.new)
        × Counted held.now counts.new) }
{
    for i in 0..1024 {
        tree[1024 + i] = if i < bids.prices.len() {
            let r = multi_market::overlap(held, counts, bids.masks, bids.hop, i);
            multi_keys::key_of(bids.prices[i], r, i)
        } else {
            multi_keys::OUT
        };
    }
    multi_keys::play(tree);
}

// The run: each round's key, the cells that it gains and where they begin on the tape. Answers the number of rounds.
pub fn trace(
    bids: Bids,
    count: usize,
    held: &mut [u64],
    counts: &mut [u64],
    tree: &mut [u64],
    run: &mut [u64],
    tape: &mut [u64],
) -> usize
    requires { (length held.old ≡ bids.w) × (Counted held.old counts.old × (Tree tree.old
        × (Entered (has bids.masks.now (length held.old)) bids.prices.now held.old (leaves tree.old)
        × (First count held.old × ((count ≤ 64 * length held.old) × ((3 * count + 3 ≤ length run.old)
        × (2 * count ≤ length tape.old))))))) }
    ensures { Trace (has bids.entry.masks.now (length held.old)) bids.entry.prices.now (length held.old)
        count run.new tape.new result
        × (Counted held.new counts.new × (length tree.new ≡ 2048)) }
{
    let mut r = 0;
    let mut c = 0;
    run[2] = 0;
    // a loop: it goes on as long as a bid has an open cell, not a number of times
    loop {
        let f = front(bids, held, counts, tree, multi_keys::LAST);
        let key = f.key;
        if multi_keys::LAST < key {
            run[3 * r] = multi_keys::LAST;
            return r;
        }
        let b = (key % 1024) as usize;
        let z = cut(held, bids.masks, bids.hop, b, tape, c);
        cells_pairs::close_pairs(held, counts, tape, c, z);
        multi_keys::put(tree, b, multi_keys::OUT);
        run[3 * r] = key;
        run[3 * r + 1] = f.cells;
        run[3 * r + 5] = z as u64;
        c = z;
        r += 1;
    }
}
