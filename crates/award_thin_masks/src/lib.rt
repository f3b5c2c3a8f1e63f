// Whether each cell has two bidders, for bids as rows of words: the cells in two bids, word by word.
#![tactic(auto)]

ghost use Rattle.std.specs.Prelude.{◌≡◌, ◌+◌, ◌*◌, ◌≤◌, ◌<◌, length};
ghost use Rattle.multi_market.specs.Market.{has};
ghost use Rattle.award_thin.specs.Thin.{Says, fewer, Reached, Gathered, FirstOf, FirstIn};

use award_thin::Thin;

// The cells of word q in two bids or more, of those wanted: one word of each bid in turn, until each cell wanted is in two.
fn seen(masks: &[u64], w: usize, n: usize, q: usize, wanted: u64) -> u64
    requires { (length masks.now ≡ w * n) × (q < w) }
    ensures { Reached masks.now w n q wanted result }
{
    let mut one: u64 = 0;
    let mut two: u64 = 0;
    for i in 0..n {
        let x = masks[w * i + q];
        two |= one & x;
        one |= x;
        if two & wanted == wanted {
            return wanted;
        }
    }
    two
}

// The cells in two bids or more, of those wanted.
fn gather(masks: &[u64], w: usize, n: usize, wanted: &[u64], enough: &mut [u64])
    requires { (length masks.now ≡ w * n) × ((length wanted.now ≡ w) × (length enough.old ≡ w)) }
    ensures { Gathered masks.now w n wanted.now enough.new w }
{
    for q in 0..w {
        enough[q] = seen(masks, w, n, q, wanted[q]);
    }
}

// The first cell with fewer than two bidders, or `cells` where there is none, as `cells::next` answers it; `wanted` and `enough` are lent
// for the work.
fn first_below(
    masks: &[u64],
    w: usize,
    n: usize,
    cells: usize,
    wanted: &mut [u64],
    enough: &mut [u64],
) -> usize
    requires { (length masks.now ≡ w * n) × ((w ≤ 158) × ((cells ≤ 64 * w)
        × ((length wanted.old ≡ w) × (length enough.old ≡ w)))) }
    ensures { FirstOf (fewer (has masks.now w) n 2) cells result }
{
    multi_market::unlock(wanted, cells);
    gather(masks, w, n, wanted, enough);
    cells::next(wanted, enough, 0).min(cells)
}

// The first cell with fewer than two bidders, or `cells` where there is none.
fn masks_below(masks: &[u64], w: usize, n: usize, cells: usize) -> usize
    requires { (length masks.now ≡ w * n) × ((w ≤ 158) × (cells ≤ 64 * w)) }
    ensures { FirstOf (fewer (has masks.now w) n 2) cells result }
{
    let mut wanted = [1u64; 158];
    let mut enough = [1u64; 158];
    first_below(masks, w, n, cells, &mut wanted[..w], &mut enough[..w])
}

// Whether bid i has the cell x.
fn mask_has(masks: &[u64], w: usize, i: usize, x: usize) -> bool
    requires { (w * i + w ≤ length masks.now) × (x < 64 * w) }
    ensures { result ≡ has masks.now w i x }
{
    let a = w * i;
    let e = a + w;
    cells::holds(&masks[a..e], x)
}

// The earliest cell that no bid has, where there is one.
fn bare_mask(masks: &[u64], w: usize, n: usize, cells: usize) -> Option<usize>
    requires { (length masks.now ≡ w * n) × (cells ≤ 64 * w) }
    ensures { FirstIn (fewer (has masks.now w) n 1) cells result }
{
    'cells: for x in 0..cells {
        for i in 0..n {
            if mask_has(masks, w, i, x) {
                continue 'cells;
            }
        }
        return Some(x);
    }
    None
}

// Whether each cell is in two bids, as rows of w words.
pub fn thin_masks(masks: &[u64], w: usize, n: usize, cells: usize) -> Result<(), Thin>
    requires { (length masks.now ≡ w * n) × ((w ≤ 158) × (cells ≤ 64 * w)) }
    ensures { Says (has masks.now w) n cells result }
{
    let lone = masks_below(masks, w, n, cells);
    if lone == cells {
        return Ok(());
    }
    match bare_mask(masks, w, n, cells) {
        Some(missing) => Err(Thin::Nobody {
            cell: missing as u64,
        }),
        None => Err(Thin::Alone { cell: lone as u64 }),
    }
}
