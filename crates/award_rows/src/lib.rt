// Award rows from the flags and cents of the bids: how many rows an answer fills, and a lent slice of rows filled.
#![tactic(auto)]

ghost use Rattle.std.specs.Prelude.{◌≡◌, ◌++◌, ◌≤◌, length, drop};
ghost use Rattle.award_rule.specs.Plain.{rows_in};
ghost use Rattle.award_outcome.specs.Promise.{rows_filled};

use tender::{AwardRow, Refusal, Totals};

// Fills one award row for each of the n bids, in entry order: won where its flag is 1, and its cents. Rows past the last bid stay.
pub fn fill(rows: &mut [AwardRow], won: &[u64], cents: &[u64], n: usize)
    requires { (n ≤ length rows.old) × ((n ≤ length won.now) × (n ≤ length cents.now)) }
    ensures { rows.new ≡ rows_in n won.now cents.now ++ drop n rows.old }
{
    for i in 0..n {
        rows[i] = AwardRow {
            won: won[i] == 1,
            cents: cents[i],
        };
    }
}

// The award rows that an answer fills: one for each bid where it awards, none where it declines.
#[tactic(auto, unfolding(award_outcome::specs::Promise::rows_filled))]
pub fn rows_filled(answer: Result<Totals, Refusal>, count: usize) -> usize
    ensures { result ≡ rows_filled answer count }
{
    match answer {
        Ok(_) => count,
        Err(_) => 0,
    }
}
