// The award of a tender of either kind over plain lists: a refusal, 9 to 12, or a flag and the cents paid for each bid, and the totals.
// What it answers is in `award_rule` Award, what is promised of plain lists in `award_rule` Plain.
#![tactic(auto)]

ghost use Rattle.std.specs.Prelude.{◌≡◌, ◌≤◌, min, length};
ghost use Rattle.tender.specs.Limits.{max_entries};
ghost use Rattle.award_rule.specs.Award.{award_of};
ghost use Rattle.award_rule.specs.Plain.{told_in, PlainPromise};

use award_fault::Faultless;
use tender::{Kind, Refusal, Tender, Totals};

// Tables without a fault: flags and cents of all entries.
fn settle_entries(
    tables: &Faultless<'_>,
    flags: &mut [u64],
    pays: &mut [u64],
) -> Result<Totals, Refusal>
    requires { (length flags.old ≡ max_entries) × (length pays.old ≡ max_entries) }
    ensures { told_in tables.now.count flags.new pays.new result
        ≡ award_of tables.now.tender.kind tables.now.tender tables.now.count tables.now.bids.now tables.now.windows.now tables.now.count }
{
    match tables.tender.kind {
        Kind::Single => award_entries::settle_single(tables, flags, pays),
        Kind::Multi => award_entries::settle_multi(tables, flags, pays),
    }
}

// Tables without a fault: flags and cents of the owners' bids in the two lent lists.
pub fn settle_sound(
    tables: &Faultless<'_>,
    won: &mut [u64],
    cents: &mut [u64],
) -> Result<Totals, Refusal>
    requires { (tables.now.count ≤ length won.old) × (tables.now.count ≤ length cents.old) }
    ensures { PlainPromise tables.now.tender.kind tables.now.tender tables.now.count tables.now.bids.now tables.now.windows.now
        tables.now.count won.old cents.old won.new cents.new result }
{
    let mut flags = [1u64; tender::MAX_ENTRIES];
    let mut pays = [1u64; tender::MAX_ENTRIES];
    let answer = settle_entries(tables, &mut flags, &mut pays);
    award_plain::report(answer, tables.count, &flags, &pays, won, cents);
    answer
}

// The award of this kind where `lent` award rows are lent: first 9, then 10, then the tender itself.
pub fn settle_in(
    kind: Kind,
    tender: Tender,
    count: usize,
    bids: &[u64],
    windows: &[u64],
    lent: usize,
    won: &mut [u64],
    cents: &mut [u64],
) -> Result<Totals, Refusal>
    requires { (min lent 1000 ≤ length won.old) × (min lent 1000 ≤ length cents.old) }
    ensures { PlainPromise kind tender count bids.now windows.now lent won.old
        cents.old won.new cents.new result }
{
    if let Some(row) = award_fault::fault(kind, tender, count, bids, windows) {
        // 9: the tables break a rule.
        return Err(Refusal::BadTables { row });
    }
    if lent < count {
        // 10: fewer award rows than bids.
        return Err(Refusal::RowsTooFew);
    }
    let tables = Faultless {
        tender,
        count,
        bids,
        windows,
    };
    settle_sound(&tables, won, cents)
}
