// Asks `highest::highest_price` with which price each bid would win: near misses that can be read by eye, and random tenders under a
// fixed seed, where each answer is held against every price named to the award. Writes the answers, what was tried, and last how many
// answers disagree.
#![tactic(auto)]

mod lots;
mod misses;
mod trials;

use std::io;
use test_tools::Output;

fn tell_all(rt: &impl Print) -> io::Result<()> {
    misses::cases(rt)?;
    let t = trials::all(1500);
    println!(rt; "single awarded {}", t.single.plain)?;
    println!(rt; "multi awarded {}", t.multi.plain)?;
    println!(rt; "single awarded with a reserve {}", t.single.reserved)?;
    println!(rt; "multi awarded with a reserve {}", t.multi.reserved)?;
    println!(rt; "refused {}", t.refused)?;
    println!(rt; "bids asked for {}", t.asked)?;
    println!(rt; "winners {}", t.winners)?;
    println!(rt; "winners up to a cent below the payment {}", t.below)?;
    println!(rt; "bids that no price lets win {}", t.none)?;
    println!(rt; "prices tried {}", t.prices)?;
    println!(rt; "disagreements {}", t.wrong)
}

// A program of this repository has no exit status, so an output that cannot be written is not told.
fn main() {
    let _ = tell_all(&Output);
}
