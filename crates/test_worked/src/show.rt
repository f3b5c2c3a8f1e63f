// What reading a text answers, written with a label.
use reader::Filled;
use std::{fmt, io};
use tender::Refusal;

// An answer as numbers: accepted with the rows of each table, and the reserve, where there is one; or refused with number and place.
#[derive(Clone, Copy)]
pub(crate) struct Told(pub(crate) Result<Filled, Refusal>);

impl fmt::Display for Told {
    fn fmt<W: fmt::Write>(&self, f: &mut fmt::Formatter<W>) -> fmt::Result {
        match self.0 {
            Ok(filled) => {
                write!(f, "accepted {} {}", filled.bids, filled.windows)?;
                match filled.tender.reserve {
                    None => Ok(()),
                    Some(price) => write!(f, ", reserve {price}"),
                }
            }
            Err(r) => write!(f, "refused {} {}", tender::number(r), tender::place(r)),
        }
    }
}

// Reads the text into tables that are long enough, writes what that answers, and gives the price that the first row of the bid table
// has.
pub(crate) fn show(rt: &impl Print, label: &str, text: &[u8]) -> io::Result<u64> {
    let mut bids = [0u64; tender::BID_TABLE];
    let mut windows = [0u64; tender::WINDOW_TABLE];
    let answer = reader::read(text, &mut bids, &mut windows);
    println!(rt; "{label}: {}", Told(answer))?;
    Ok(bids[1])
}

// So of each of these texts, with a label each.
pub(crate) fn show_all(rt: &impl Print, cases: &[(&str, &str)]) -> io::Result<()> {
    for (label, text) in cases {
        show(rt, label, text.as_bytes())?;
    }
    Ok(())
}

// The same of texts with a bid, with its price.
pub(crate) fn show_prices(rt: &impl Print, cases: &[(&str, &str)]) -> io::Result<()> {
    for (label, text) in cases {
        let price = show(rt, label, text.as_bytes())?;
        println!(rt; "  its price is {price}")?;
    }
    Ok(())
}
