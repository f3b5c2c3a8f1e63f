// What is answered of the cells of a tender that are not each in two bids: the first in no bid, else the first in one bid. A cell in fewer
// than two is looked for first: mostly there is none.
#![tactic(auto)]

#[derive(Clone, Copy, Debug, PartialEq, Eq)]
pub enum Thin {
    Nobody { cell: u64 },
    Alone { cell: u64 },
}
