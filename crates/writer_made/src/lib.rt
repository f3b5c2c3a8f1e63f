// The text of faultless tables in one spelling, put at the start of a buffer that has room for any, as far as a text may go.
#![tactic(auto)]

ghost use Rattle.std.specs.Prelude.{◌≡◌, ◌≤◌, length};
ghost use Rattle.tender.specs.Tables.{rows_of};
ghost use Rattle.runs.specs.MinuteRows.{row_words, Empty, Full};
ghost use Rattle.writer_text.specs.Filling.{SomeBids, SomeText};

use award_fault::Faultless;
use spelling_put::Page;

// The lines of the bids, as far as a text may go: past 65,536 bytes none is begun.
fn put_bids(
    page: &mut Page<'_>,
    tables: &Faultless<'_>,
    row: &mut [u64],
    blank: &[u64],
    full: &[u64],
)
    requires { (66112 ≤ length page.old.buf.now) × ((length row.old ≡ row_words) × (Empty blank.now × Full full.now)) }
    ensures same { page.new.buf.ghost_name ≡ page.old.buf.ghost_name }
    ensures bids { SomeBids tables.now.windows.now (rows_of tables.now.count tables.now.bids.now) page.old.buf.now page.old.at
        tables.now.count page.new.buf.now page.new.at }
{
    let bids = tables.bids;
    for j in 0..tables.count {
        if 65536 < page.at {
            return;
        }
        writer_line::put_bid(
            page,
            tables.windows,
            bids[tender::BID_WIDTH * j],
            bids[tender::BID_WIDTH * j + 1],
            bids[tender::BID_WIDTH * j + 2] as usize,
            bids[tender::BID_WIDTH * j + 3] as usize,
            row,
            blank,
            full,
        );
    }
}

// The text of tables without a fault, as far as it may go.
pub fn put_text(buf: &mut [u8], tables: &Faultless<'_>) -> usize
    requires { 66112 ≤ length buf.old }
    ensures { SomeText tables.now.tender tables.now.windows.now (rows_of tables.now.count tables.now.bids.now) buf.old tables.now.count
        buf.new result }
{
    let mut row = [1u64; 158];
    let blank = [0u64; 158];
    let full = [!0u64; 158];
    let mut page = Page::new(buf);
    writer_line::put_head(&mut page, tables.tender);
    put_bids(&mut page, tables, &mut row, &blank, &full);
    page.at
}
