// The text of a tender's tables in one spelling, into a lent buffer: each bid's windows joined where they overlap or touch, in
// rising order. `writer_text` Canonical says what that text is, and when it is declined.
#![tactic(auto)]

ghost use Rattle.std.specs.Prelude.{◌≡◌};
ghost use Rattle.writer.specs.Writes.{Writes};

use award_fault::Faultless;
use spelling_put::Page;
use tender::{Refusal, Tender};

// The text of tables without a fault, where it is short enough and there is room for it.
fn write_sound(tables: &Faultless<'_>, text: &mut [u8]) -> Result<usize, Refusal>
    ensures { Writes tables.now.tender tables.now.count tables.now.bids.now tables.now.windows.now text.old text.new result }
{
    let mut made = [1u8; 66112];
    let n = writer_made::put_text(&mut made, tables);
    if 65536 < n {
        return Err(Refusal::NoRoom);
    }
    if text.len() < n {
        return Err(Refusal::NoRoom);
    }
    let mut page = Page::new(text);
    page.put_all(&made[..n]);
    Ok(page.at)
}

// The text of the tables in one spelling, at the start of `text`: its length, with the bytes past it staying. Refused are, with `text`
// as it was, the tables that the award of the tender's kind refuses with 9, and then, with 14, a text above 65,536 bytes or longer
// than `text`.
pub fn write(
    tender: Tender,
    count: usize,
    bids: &[u64],
    windows: &[u64],
    text: &mut [u8],
) -> Result<usize, Refusal>
    ensures { Writes tender count bids.now windows.now text.old text.new result }
{
    match award_fault::fault(tender.kind, tender, count, bids, windows) {
        None => {
            let tables = Faultless {
                tender,
                count,
                bids,
                windows,
            };
            write_sound(&tables, text)
        }
        Some(row) => Err(Refusal::BadTables { row }),
    }
}
