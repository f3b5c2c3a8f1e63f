// With which price a bid of a text would win, for a host program in C (include/tender.h): `tender_highest` of the crate `highest_text`,
// exported with its contract.
#![tactic(auto)]

ghost use Rattle.highest_text.specs.Told.{HighestTold};

// The largest whole price with which the bid of this number would win if all else stood, as a line: its length, with the line at the
// start of `out` and the bytes past it staying; 0 where it is longer than `out`, which then stays as it was.
#[unsafe(no_mangle)]
pub extern "C" fn tender_highest(text: &[u8], bidder: u64, out: &mut [u8]) -> usize
    ensures { HighestTold text.now bidder out.old out.new result }
{
    highest_text::tender_highest(text, bidder, out)
}
