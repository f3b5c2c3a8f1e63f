// Standard output as the test programs write it, through the kit's `io`: what cannot be written is let go, and what follows is tried, so
// that no error is told and their checks reach no statement of the operating system's but that of C's `write`.
use std::fmt;
use std::fmt::{Display, Write};
use std::io::Result;

const STDOUT_FILENO: i32 = 1;

// Standard output. No program calls the trait's `write_some`, which has its own body.
#[derive(Clone, Copy)]
pub struct Output;

impl fmt::Write for Output {
    fn write_str(&mut self, s: &str) -> fmt::Result {
        io::write_all(STDOUT_FILENO, s.as_bytes());
        Ok(())
    }
}

impl Print for Output {
    fn print<D: Display + Drop>(&self, value: D) -> Result<()> {
        let mut out = *self;
        let _ = write!(out, "{value}");
        Ok(())
    }

    fn println<D: Display + Drop>(&self, value: D) -> Result<()> {
        let mut out = *self;
        let _ = writeln!(out, "{value}");
        Ok(())
    }

    fn write_all(&self, bytes: &[u8]) -> Result<()> {
        io::write_all(STDOUT_FILENO, bytes);
        Ok(())
    }
}
