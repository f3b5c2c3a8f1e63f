// Tries both awards on random tenders of few bids under a fixed seed, half of them with a reserve, against another implementation
// (`brute`) that tries every set of entries and every price: over up to 11 cells, each a minute in every other tender, 6 to 60
// minutes in most of the others, and more, up to a whole week of ten cells, in a few. In some of them each owner names false
// prices too, and in other tenders offers part of the minutes (`withhold`), of which none may gain. And the check of the tables on
// tables with a fault in them, against another check (`rules`). Writes what was tried by kind, and last how many answers disagree.
#![tactic(auto)]

mod brute;
mod compare;
mod parts;
mod random;
mod rules;
mod withhold;

use std::io;
use test_tools::Output;

fn tell_all(rt: &impl Print) -> io::Result<()> {
    let t = compare::awards(3000);
    println!(rt; "single awarded {}", t.single.awarded)?;
    println!(rt; "single declined {}", t.single.declined)?;
    println!(rt; "multi awarded {}", t.multi.awarded)?;
    println!(rt; "multi declined {}", t.multi.declined)?;
    println!(rt; "with a reserve {}", t.reserved)?;
    println!(rt; "house booked {}", t.booked)?;
    println!(rt; "house booked beside paid owners {}", t.beside)?;
    println!(rt; "false prices {}", t.prices)?;
    let w = withhold::offers(52);
    println!(rt; "parts of the minutes offered {}", w.parts)?;
    println!(rt; "parts refused {}", w.thin)?;
    println!(rt; "prices named with parts {}", w.prices)?;
    println!(rt; "prices that win with parts {}", w.winning)?;
    println!(rt; "gains with parts {}", w.gains)?;
    let f = compare::faults(6000);
    println!(rt; "tables sound {}", f.sound)?;
    println!(rt; "tables faulty {}", f.faulty)?;
    println!(rt; "rows too few {}", f.short)?;
    let wrong = t.wrong.wrapping_add(f.wrong);
    println!(rt;
        "disagreements {}",
        wrong.wrapping_add(w.gains).wrapping_add(w.wrong)
    )
}

// A program of this repository has no exit status, so an output that cannot be written is not told.
fn main() {
    let _ = tell_all(&Output);
}
