// One line of a bid text, read in one pass from a place on into a value before it is judged.
#![tactic(auto)]

pub mod line;
