// Standard input and output as a reader and a writer, over the kit's library `io`. The streams of `std` would also ask the system
// why a read or a write failed, which nothing here tells apart.
ghost use Rattle.std.specs.Prelude.{◌≡◌, ◌<◌, length, IsTrue, Ok, IfOk};
ghost use Rattle.std.specs.Io.{ReadsAtMost, WritesAtMost};

use std::io::{Error, ErrorKind, Read, Result, Write};

// The numbers of the descriptors of standard input and standard output.
const STDIN_FILENO: i32 = 0;

const STDOUT_FILENO: i32 = 1;

// Standard input, and whether a read came to its end.
#[derive(Drop)]
pub(crate) struct StandardInput {
    pub(crate) is_at_end: bool,
}

impl Read for StandardInput {
    // Reads until the bytes are full, the input ends or a read fails, which is taken for the end. Behind the end nothing is read.
    fn read(&mut self, bytes: &mut [u8]) -> Result<usize>
        ensures bound { ReadsAtMost result bytes.new }
        ensures ended { IsTrue self.old.is_at_end → result ≡ Ok 0 }
        ensures end { IfOk result (λ got. got < length bytes.new → IsTrue self.new.is_at_end) }
    {
        if self.is_at_end {
            return Ok(0);
        }
        let got = io::read_full(STDIN_FILENO, bytes);
        self.is_at_end = got < bytes.len();
        Ok(got)
    }
}

// Standard output.
#[derive(Drop)]
pub(crate) struct StandardOutput;

impl Write for StandardOutput {
    // Writes all of the bytes. Where it gives an error some of them may have been written.
    fn write(&mut self, bytes: &[u8]) -> Result<usize>
        ensures bound { WritesAtMost result bytes.now }
        ensures all { IfOk result (λ taken. taken ≡ length bytes.now) }
    {
        if io::write_all(STDOUT_FILENO, bytes) {
            Ok(bytes.len())
        } else {
            Err(Error::from(ErrorKind::WriteZero))
        }
    }

    // Nothing is held back.
    fn flush(&mut self) -> Result<()> {
        Ok(())
    }
}
