// The listing of what a reader gives, handed to a writer.
ghost use Rattle.std.specs.Prelude.{◌≤◌, ◌<◌, length, take, IfSome, OnOk};
ghost use Rattle.std.specs.Io.KnownBytes.{Appends, Consumes, IsAtEnd};
ghost use Rattle.listing.specs.Report.{report_of, TakesAtMost};

use crate::report::{IMAGE_BYTES, report};
use layout::head::TABLE_WORDS;
use std::io;
use std::io::{Read, Write};

// A byte more than the longest image has, which tells that input is too long.
const INPUT_BYTES: usize = IMAGE_BYTES + 1;

// The longest listing: its first line takes at most 45 bytes, and that of a word at most 22.
const TEXT_BYTES: usize = 45 + 22 * TABLE_WORDS;

// Reads until the bytes are full, the input ends or a read fails. Gives how many bytes it put at their start, and the error.
// By hand, since the program's memory is fixed: `read_to_end` takes a `Vec`, and `read_exact` gives no count where input is short.
fn read_full<R: Read>(reader: &mut R, bytes: &mut [u8]) -> (usize, io::Result<()>)
    ensures bound { result.0 ≤ length bytes.new }
    ensures read { Consumes (R.remaining reader.old) (R.remaining reader.new) (take result.0 bytes.new) }
    ensures end { OnOk result.1 (result.0 < length bytes.new → IsAtEnd (R.remaining reader.new)) }
{
    let mut done = 0;
    while done < bytes.len() {
        match reader.read(&mut bytes[done..]) {
            Ok(0) => return (done, Ok(())),
            Ok(got) => done += got,
            Err(error) => return (done, Err(error)),
        }
    }
    (done, Ok(()))
}

// Reads an image, of which it takes one byte more than the longest has, and writes its listing or the line of its refusal.
// It takes a read that fails for the end of the input, and gives the error when the text is written.
pub fn list<R: Read, W: Write>(reader: &mut R, writer: &mut W) -> io::Result<()>
    ensures reads { TakesAtMost (R.remaining reader.old) (R.remaining reader.new) 64007 }
    ensures writes { OnOk result (IfSome (R.remaining reader.old)
        (λ image. Appends (W.contents writer.old) (W.contents writer.new) (report_of image))) }
{
    let mut input = [0; INPUT_BYTES];
    let mut table = [0; TABLE_WORDS];
    let mut journal = [0; 1];
    let mut text = [0; TEXT_BYTES];
    let (got, read) = read_full(reader, &mut input);
    let end = report(&input[..got], &mut table, &mut journal, &mut text);
    writer.write_all(&text[..end])?;
    read
}

#[cfg(test)]
mod tests {
    use super::*;

    // The image of state 7 with offer 5 at 1200, and its listing.
    const IMAGE: &[u8] = b"\0\0\0\x07\0\x01\x80\0\0\x05\0\0\x04\xb0";

    const LISTING: &[u8] = b"state 7 offers 1\n5 1200\n";

    // Bytes behind which every read fails.
    #[derive(Drop)]
    struct Broken<'a>(&'a [u8]);

    impl Read for Broken<'_> {
        fn read(&mut self, buf: &mut [u8]) -> io::Result<usize> {
            if self.0.is_empty() {
                return Err(io::Error::from(io::ErrorKind::BrokenPipe));
            }
            self.0.read(buf)
        }
    }

    #[test]
    fn lists_what_was_read(rt: HostRuntime) {
        let mut text = Vec::new(rt.alloc());
        let listed = list(&mut &IMAGE[..], &mut text);
        assert!(rt; listed.is_ok());
        assert_eq!(rt; text.as_slice(), LISTING);
    }

    #[test]
    fn lists_what_came_before_a_failed_read(rt: HostRuntime) {
        let mut text = Vec::new(rt.alloc());
        let listed = list(&mut Broken(IMAGE), &mut text);
        assert!(rt; listed.is_err());
        assert_eq!(rt; text.as_slice(), LISTING);
    }

    #[test]
    fn gives_the_error_of_a_write(rt: HostRuntime) {
        let mut bytes = [0u8; 10];
        let listed = list(&mut &IMAGE[..], &mut &mut bytes[..]);
        assert!(rt; listed.is_err());
        assert_eq!(rt; &bytes[..], &LISTING[..10]);
    }
}
