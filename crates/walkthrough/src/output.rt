// Standard output, over the kit's library `io`. The stream of `std` would also ask the system why a write failed, which nothing here tells.
ghost use Rattle.std.specs.Prelude.{◌≡◌, Ok};

use std::fmt;
use std::fmt::{Display, Formatter};
use std::io::Result;

// The number of the descriptor of standard output.
const STDOUT_FILENO: i32 = 1;

// Standard output, to which each piece of a text is written as it comes. README promises that no write that fails is reported: such
// a piece is dropped, and what comes behind it is written all the same.
#[derive(Drop)]
pub(crate) struct StandardOutput;

impl fmt::Write for StandardOutput {
    fn write_str(&mut self, piece: &str) -> fmt::Result
        ensures { result ≡ Ok tt }
    {
        io::write_all(STDOUT_FILENO, piece.as_bytes());
        Ok(())
    }
}

impl Print for StandardOutput {
    fn print<D: Display + Drop>(&self, value: D) -> Result<()>
        ensures { result ≡ Ok tt }
    {
        let _ = Formatter::new(StandardOutput).write(value);
        Ok(())
    }

    fn println<D: Display + Drop>(&self, value: D) -> Result<()>
        ensures { result ≡ Ok tt }
    {
        let _ = Formatter::new(StandardOutput).writeln(value);
        Ok(())
    }

    fn write_all(&self, bytes: &[u8]) -> Result<()>
        ensures { result ≡ Ok tt }
    {
        io::write_all(STDOUT_FILENO, bytes);
        Ok(())
    }
}
