// Whether each cell has two bidders, for bids of one window each: a sweep over the bids in order of start.
#![tactic(auto)]

ghost use Rattle.std.specs.Prelude.{◌≡◌, ◌≤◌, ◌<◌, length, get_or};
ghost use Rattle.cover.specs.Settled.{spans};
ghost use Rattle.cover.specs.Intervals.{Order};
ghost use Rattle.award_thin.specs.Thin.{Says, Spans, fewer, FirstOf, FirstIn};

use award_thin::Thin;

// The first cell with fewer than two bidders, or `cells` where there is none: the second end comes to it by itself, and an Option would
// ask for it once more. The bids come in order of start, with the two greatest ends so far: each cell below the second is in two bids.
// Where no bid that is left begins at it or before, it is the first that is not.
fn spans_below(starts: &[u64], ends: &[u64], order: &[usize], cells: usize) -> usize
    requires { Spans starts.now ends.now cells × ((length starts.now ≤ length order.now)
        × Order (length starts.now) (λ i. get_or starts.now i 0) (λ q. get_or order.now q 0)) }
    ensures { FirstOf (fewer (spans starts.now ends.now) (length starts.now) 2) cells result }
{
    let mut first: u64 = 0;
    let mut second: u64 = 0;
    for q in 0..starts.len() {
        let i = order[q];
        if second < starts[i] {
            return second as usize;
        }
        second = second.max(first.min(ends[i]));
        first = first.max(ends[i]);
    }
    second as usize
}

// Whether bid i has the cell x.
#[tactic(auto, unfolding(cover::specs::Settled::spans))]
fn span_has(starts: &[u64], ends: &[u64], i: usize, x: usize) -> bool
    requires { (i < length starts.now) × (length ends.now ≡ length starts.now) }
    ensures { result ≡ spans starts.now ends.now i x }
{
    starts[i] <= x as u64 && (x as u64) < ends[i]
}

// The earliest cell that no bid has, where there is one.
fn bare_span(starts: &[u64], ends: &[u64], cells: usize) -> Option<usize>
    requires { length ends.now ≡ length starts.now }
    ensures { FirstIn (fewer (spans starts.now ends.now) (length starts.now) 1) cells result }
{
    'cells: for x in 0..cells {
        for i in 0..starts.len() {
            if span_has(starts, ends, i, x) {
                continue 'cells;
            }
        }
        return Some(x);
    }
    None
}

// Whether each cell is in two bids of one window each.
pub fn thin_spans(starts: &[u64], ends: &[u64], order: &[usize], cells: usize) -> Result<(), Thin>
    requires { Spans starts.now ends.now cells × ((length starts.now ≤ length order.now)
        × Order (length starts.now) (λ i. get_or starts.now i 0) (λ q. get_or order.now q 0)) }
    ensures { Says (spans starts.now ends.now) (length starts.now) cells result }
{
    let lone = spans_below(starts, ends, order, cells);
    if lone == cells {
        return Ok(());
    }
    match bare_span(starts, ends, cells) {
        Some(bare) => Err(Thin::Nobody { cell: bare as u64 }),
        None => Err(Thin::Alone { cell: lone as u64 }),
    }
}
