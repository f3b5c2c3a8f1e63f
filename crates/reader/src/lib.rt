// The bid reader: bid text to a tender, a table of bids and a table of windows. `reader_text` Read says what a text gives;
// a text is read whole or refused, and a refused text leaves both tables as they were.
#![tactic(auto)]

ghost use Rattle.std.specs.Prelude.{◌≡◌, ◌/◌, length};
ghost use Rattle.tender.specs.Tables.{bid_width, window_width};
ghost use Rattle.reader_text.specs.Read.{read_into};
ghost use Rattle.reader.specs.Answer.{read_answer, bids_after, windows_after};

pub use reader_fill::Filled;
use reader_fill::fill;
use tender::Refusal;

// Reads the text into the first rows of the two tables; places past them stay.
pub fn read(text: &[u8], bids: &mut [u64], windows: &mut [u64]) -> Result<Filled, Refusal>
    ensures answer { result ≡ read_answer (read_into text.now (length bids.old / bid_width)
        (length windows.old / window_width)) }
    ensures rows { bids.new ≡ bids_after bids.old
        (read_into text.now (length bids.old / bid_width) (length windows.old / window_width)) }
    ensures own { windows.new ≡ windows_after windows.old
        (read_into text.now (length bids.old / bid_width) (length windows.old / window_width)) }
{
    let mut rows = [1u64; tender::BID_TABLE];
    let mut spans = [1u64; tender::WINDOW_TABLE];
    let filled = fill(text, &mut rows, &mut spans)?;
    if bids.len() / tender::BID_WIDTH < filled.bids {
        return Err(Refusal::TableTooShort);
    }
    if windows.len() / tender::WINDOW_WIDTH < filled.windows {
        return Err(Refusal::TableTooShort);
    }
    let k = tender::BID_WIDTH * filled.bids;
    bids[..k].copy_from_slice(&rows[..k]);
    let m = tender::WINDOW_WIDTH * filled.windows;
    windows[..m].copy_from_slice(&spans[..m]);
    Ok(filled)
}
