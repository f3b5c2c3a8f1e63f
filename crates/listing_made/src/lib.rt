// The list of a text, made at the start of a buffer that has room for it: reads the text, makes the award and puts its lines.
#![tactic(auto)]

ghost use Rattle.std.specs.Prelude.{◌≡◌, ◌+◌, ◌*◌, ◌≤◌, length, take};
ghost use Rattle.tender.specs.Tables.{bid_width};
ghost use Rattle.listing_text.specs.Made.{AwardedWritten, Made};
ghost use Rattle.listing_made.specs.Room.{room_for};

use award_fault::Faultless;

// The list of the award to these tables, which break no rule.
fn put_award(list: &mut [u8], tables: &Faultless<'_>) -> usize
    requires { (tables.now.count ≤ 1000) × ((bid_width * tables.now.count ≤ length tables.now.bids.now)
        × (48 * tables.now.count + 136 ≤ length list.old)) }
    ensures { AwardedWritten tables.now.tender tables.now.count tables.now.bids.now tables.now.windows.now list.old list.new result }
{
    let mut won = [1u64; 1000];
    let mut cents = [1u64; 1000];
    match award_settle::settle_sound(tables, &mut won, &mut cents) {
        Ok(totals) => listing_lines::put_awarded(
            list,
            tables.tender,
            tables.count,
            tables.bids,
            &won,
            &cents,
            totals,
        ),
        Err(refusal) => spelling_put::put_refused(list, refusal),
    }
}

// The list of the text. The tables have room for any readable text.
pub fn make(text: &[u8], list: &mut [u8]) -> usize
    requires { room_for (length text.now) ≤ length list.old }
    ensures { Made text.now list.old list.new result }
{
    let mut bids = [1u64; tender::BID_TABLE];
    let mut windows = [1u64; tender::WINDOW_TABLE];
    match reader_fill::fill(text, &mut bids, &mut windows) {
        Ok(filled) => {
            let tables = Faultless {
                tender: filled.tender,
                count: filled.bids,
                bids: &bids,
                windows: &windows,
            };
            put_award(list, &tables)
        }
        Err(refusal) => spelling_put::put_refused(list, refusal),
    }
}

// The list of the text that stands in the first n bytes of the buffer, in its place: once it is read it is not needed.
pub fn make_in(buf: &mut [u8], n: usize) -> usize
    requires { (n ≤ length buf.old) × (room_for n ≤ length buf.old) }
    ensures { Made (take n buf.old) buf.old buf.new result }
{
    let mut bids = [1u64; tender::BID_TABLE];
    let mut windows = [1u64; tender::WINDOW_TABLE];
    match reader_fill::fill(&buf[..n], &mut bids, &mut windows) {
        Ok(filled) => {
            let tables = Faultless {
                tender: filled.tender,
                count: filled.bids,
                bids: &bids,
                windows: &windows,
            };
            put_award(buf, &tables)
        }
        Err(refusal) => spelling_put::put_refused(buf, refusal),
    }
}
