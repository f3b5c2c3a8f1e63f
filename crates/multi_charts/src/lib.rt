// The hops of the bids' words: from each word of a bid past the words that follow with no cell or, from a word that has all its cells,
// past those that have all theirs.
#![tactic(auto)]

ghost use Rattle.std.specs.Prelude.{◌≡◌, ◌+◌, ◌*◌, ◌<◌, ◌≤◌, length};
ghost use Rattle.multi_market.specs.Market.{Market, Hopping};
ghost use Rattle.multi_charts.specs.Charts.{Backed, Charted};

// Goes back from word q over words that are m, and sets their hops to `to`. Answers the first of them.
fn back(masks: &[u64], a: usize, q: usize, m: u64, to: u8, hop: &mut [u8]) -> usize
    requires { (a + q ≤ length masks.now) × (length hop.old ≡ length masks.now) }
    ensures { Backed masks.now a q m to hop.old hop.new result }
{
    let mut r = q;
    // a while: by a range each word takes five instructions where four do, which is 2 % of an award of long windows
    while 0 < r {
        if masks[a + r - 1] != m {
            return r;
        }
        r -= 1;
        hop[a + r] = to;
    }
    r
}

// The hops of bid i's words, from the last word back: a gap, then a run, else a word with some cells.
fn chart_row(masks: &[u64], w: usize, i: usize, hop: &mut [u8])
    requires { (w ≤ 158) × ((w * i + w ≤ length masks.now) × (length hop.old ≡ length masks.now)) }
    ensures { Charted masks.now w i hop.old hop.new }
{
    let a = w * i;
    let mut q = w;
    let mut gap = w;
    // a while: q goes back over a gap and a run at a time, not by one
    while 0 < q {
        let z = back(masks, a, q, 0, gap as u8, hop);
        let r = back(masks, a, z, !0, z as u8, hop);
        if r < z {
            q = r;
            gap = r;
        } else if 0 < z {
            q = z - 1;
            hop[a + q] = gap as u8;
            gap = q;
        } else {
            q = 0;
        }
    }
}

// The hops of each bid's words.
pub fn chart(prices: &[u64], masks: &[u64], w: usize, hop: &mut [u8])
    requires { Market prices.now masks.now w × (length hop.old ≡ length masks.now) }
    ensures { Hopping prices.now masks.now hop.new w }
{
    for i in 0..prices.len() {
        chart_row(masks, w, i, hop);
    }
}
