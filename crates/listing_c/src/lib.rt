// The list of a bid text for a host program in C (include/tender.h): `tender_list` of the crate `listing`, exported with its contract.
#![tactic(auto)]

ghost use Rattle.listing_text.specs.List.{Listed};

// The list of a text: its length, with the list at the start of `list` and the bytes past it staying; 0 where the list
// is longer than `list`, which then stays as it was.
#[unsafe(no_mangle)]
pub extern "C" fn tender_list(text: &[u8], list: &mut [u8]) -> usize
    ensures { Listed text.now list.old list.new result }
{
    listing::tender_list(text, list)
}
