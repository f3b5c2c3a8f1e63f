// A bid text rewritten in one spelling for a host program in C (include/tender.h): `tender_rewrite` of the crate `rewrite`, exported with
// its contract.
#![tactic(auto)]

ghost use Rattle.rewrite.specs.Rewritten.{Rewritten};

// A text in one spelling: its length, with the text at the start of `out` and the bytes past it staying; of a text that cannot be read,
// the line of the refusal. 0 where that is longer than `out`, which then stays as it was.
#[unsafe(no_mangle)]
pub extern "C" fn tender_rewrite(text: &[u8], out: &mut [u8]) -> usize
    ensures { Rewritten text.now out.old out.new result }
{
    rewrite::tender_rewrite(text, out)
}
