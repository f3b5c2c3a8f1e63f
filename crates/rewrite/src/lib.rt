// A bid text rewritten in one spelling: reads it and writes what was read. `rewrite_c` exports `tender_rewrite` to a host program in C
// (include/tender.h). `specs/Rewritten.antt` says what a text is rewritten to.
#![tactic(auto)]

ghost use Rattle.spelling.specs.Lines.{refused_line};
ghost use Rattle.spelling.specs.Delivered.{Delivered};
ghost use Rattle.rewrite.specs.Rewritten.{Delivers, Rewritten};

use tender::{Refusal, Tender};

// The line of a refusal, where there is room.
fn deliver_refusal(refusal: Refusal, out: &mut [u8]) -> usize
    ensures { Delivered (refused_line refusal) out.old out.new result }
{
    let mut line = [1u8; 52];
    let n = spelling_put::put_refused(&mut line, refusal);
    spelling_put::deliver(&line[..n], out)
}

// The text of tables, where it is written: 0 stands for any refusal.
fn deliver_text(
    tender: Tender,
    count: usize,
    bids: &[u64],
    windows: &[u64],
    out: &mut [u8],
) -> usize
    ensures { Delivers tender count bids.now windows.now out.old out.new result }
{
    match writer::write(tender, count, bids, windows, out) {
        Ok(n) => n,
        Err(_) => 0,
    }
}

// A text in one spelling: its length, with the text at the start of `out` and the bytes past it staying; of a text that cannot be read,
// the line of the refusal. 0 where that is longer than `out`, which then stays as it was. The tables have room for any readable text.
pub fn tender_rewrite(text: &[u8], out: &mut [u8]) -> usize
    ensures { Rewritten text.now out.old out.new result }
{
    let mut bids = [1u64; tender::BID_TABLE];
    let mut windows = [1u64; tender::WINDOW_TABLE];
    match reader_fill::fill(text, &mut bids, &mut windows) {
        Ok(filled) => deliver_text(filled.tender, filled.bids, &bids, &windows, out),
        Err(refusal) => deliver_refusal(refusal, out),
    }
}
