// The awards on tables. `award_single` and `award_multi` answer every call over a lent slice of award rows, and `settle`
// every call over plain lists: a flag and the cents paid for each bid. None of them requires anything.
// `award_outcome` Promise says what a call promises on rows.
#![tactic(auto)]

ghost use Rattle.std.specs.Prelude.{◌≡◌, ℕ, ◌≤◌, min, length};
ghost use Rattle.tender.specs.declared.Kind.TheVariants.{Single, Multi};
ghost use Rattle.award_outcome.specs.Promise.{Promise};
ghost use Rattle.award_rule.specs.Plain.{PlainPromise};

use tender::{AwardRow, Kind, Refusal, Tender, Totals};

// The award of this kind over plain lists: for each bid a flag, 1 for a winner, and the cents paid. There are as many
// award rows as both lists have places.
// Lists of numbers, since the public call may not change.
pub fn settle(
    kind: Kind,
    tender: Tender,
    count: usize,
    bids: &[u64],
    windows: &[u64],
    won: &mut [u64],
    cents: &mut [u64],
) -> Result<Totals, Refusal>
    ensures { PlainPromise kind tender count bids.now windows.now
        (min (length won.old) (length cents.old))
        won.old cents.old won.new cents.new result }
{
    let lent = won.len().min(cents.len());
    award_settle::settle_in(kind, tender, count, bids, windows, lent, won, cents)
}

// The award of this kind over a lent slice of award rows: settled over lists of its own, and then filled in.
fn award_in(
    kind: Kind,
    tender: Tender,
    count: usize,
    bids: &[u64],
    windows: &[u64],
    rows: &mut [AwardRow],
) -> Result<Totals, Refusal>
    ensures { Promise kind tender count bids.now windows.now rows.old rows.new result }
{
    let mut won = [1u64; 1000];
    let mut cents = [1u64; 1000];
    let lent = rows.len();
    let answer = award_settle::settle_in(
        kind, tender, count, bids, windows, lent, &mut won, &mut cents,
    );
    let filled = award_rows::rows_filled(answer, count);
    award_rows::fill(rows, &won, &cents, filled);
    answer
}

// The award of a single tender: one award row filled for each bid, or a refusal, which leaves every row as it was.
pub fn award_single(
    tender: Tender,
    count: usize,
    bids: &[u64],
    windows: &[u64],
    rows: &mut [AwardRow],
) -> Result<Totals, Refusal>
    ensures { Promise Single tender count bids.now windows.now rows.old rows.new result }
{
    award_in(Kind::Single, tender, count, bids, windows, rows)
}

// The award of a multi tender, likewise.
pub fn award_multi(
    tender: Tender,
    count: usize,
    bids: &[u64],
    windows: &[u64],
    rows: &mut [AwardRow],
) -> Result<Totals, Refusal>
    ensures { Promise Multi tender count bids.now windows.now rows.old rows.new result }
{
    award_in(Kind::Multi, tender, count, bids, windows, rows)
}
