// What reading a part of a bid text's line answers. `specs/` has what the parts are (`Words`, `Windows`), and what is read from the front
// of bytes (`Front`).
#![tactic(auto)]

// A value that was read, and the place past what spells it.
#[derive(Clone, Copy)]
pub struct Read<T> {
    pub value: T,
    pub next: usize,
}

// What is wrong with windows: some start is not below its end; or else some end is past the week.
#[derive(Clone, Copy)]
pub enum Flaw {
    Empty,
    Late,
}
