// The list of a bid text: reads it, makes the award and writes its list. `listing_c` exports `tender_list` to a host
// program in C (include/tender.h). `listing_text` List says what the list of a text is.
#![tactic(auto)]

ghost use Rattle.listing_text.specs.List.{Listed};

// The list of the text in a buffer that may be short: it is made in one of the call's own and measured first.
fn make_apart(text: &[u8], list: &mut [u8]) -> usize
    ensures { Listed text.now list.old list.new result }
{
    let mut made = [1u8; 51200];
    let n = listing_made::make(text, &mut made);
    spelling_put::deliver(&made[..n], list)
}

// The list of a text: its length, with the list at the start of `list` and the bytes past it staying; 0 where the list
// is longer than `list`, which then stays as it was.
pub fn tender_list(text: &[u8], list: &mut [u8]) -> usize
    ensures { Listed text.now list.old list.new result }
{
    if list.len() < 51200 {
        return make_apart(text, list);
    }
    listing_made::make(text, list)
}
