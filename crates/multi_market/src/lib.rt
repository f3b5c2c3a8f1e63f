// A market of bids over words of cells, in plain numbers: `overlap` counts the cells held that a bid has, `unlock` sets the first cells.
#![tactic(auto)]

ghost use Rattle.std.specs.Prelude.{◌≡◌, ◌+◌, ◌*◌, ◌≤◌, length};
ghost use Rattle.cover.specs.Greedy.{reach};
ghost use Rattle.cells_count.specs.Hops.{Hops, Counted};
ghost use Rattle.multi_market.specs.Opens.{open_of};
ghost use Rattle.multi_market.specs.Market.{word_row, has, First, Market, Hopping};

// A market's bids in plain numbers: a price a bid, and w words of cells and of hops.
#[derive(Clone, Copy)]
pub struct Bids<'a> {
    pub prices: &'a [u64],
    pub masks: &'a [u64],
    pub hop: &'a [u8],
    pub w: usize,
    pub ghost market: { Market prices.now masks.now w },
    pub ghost hopping: { Hopping prices.now masks.now hop.now w },
}

// How many of the cells held bid i has.
pub fn overlap(held: &[u64], counts: &mut [u64], masks: &[u64], hop: &[u8], i: usize) -> u64
    requires { (length held.now ≤ 158) × ((length held.now * i + length held.now ≤ length masks.now)
        × ((length hop.now ≡ length masks.now) × (Counted held.now counts.old
        × Hops (word_row masks.now (length held.now) i) (word_row hop.now (length held.now) i)))) }
    ensures { ((result ≡ reach (has masks.now (length held.now) i) (open_of held.now))
        × (result ≤ 10112))
        × Counted held.now counts.new }
{
    let w = held.len();
    let a = w * i;
    let e = a + w;
    cells_count::reach(held, counts, &masks[a..e], &hop[a..e])
}

// Sets the first cells and no other.
pub fn unlock(held: &mut [u64], count: usize)
    requires { (count ≤ 64 * length held.old) × (length held.old ≤ 158) }
    ensures { First count held.new }
{
    cells::clear(held);
    cells::add_range(held, 0, count);
}
