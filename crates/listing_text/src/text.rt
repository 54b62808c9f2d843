// Text and numbers in decimal, put one behind another into lent bytes.
ghost use Rattle.std.specs.Prelude.{◌≡◌, ◌+◌, ◌≤◌, length};
ghost use Rattle.listing_text.specs.Decimal.{decimal_of};
ghost use Rattle.listing_text.specs.Stored.{Puts};

// Text at the start of lent bytes, and where it ends. It is put by hand, and not by `write!`, since `listing::render` promises
// its bytes in every case, and no clause of `write!` says that it answers no error.
#[derive(Drop)]
pub struct Text<'a> {
    pub(crate) bytes: &'a mut [u8],
    pub(crate) end: usize,
}

impl<'a> Text<'a> {
    // No text yet.
    pub fn new(bytes: &'a mut [u8]) -> Text<'a>
        ensures end { result.end ≡ 0 }
        ensures bytes { result.bytes.now ≡ bytes.old }
        ensures lent { result.bytes.ghost_name ≡ bytes.entry.ghost_name }
    {
        Text { bytes, end: 0 }
    }

    // The position behind the text that is there.
    pub fn end(&self) -> usize
        ensures { result ≡ self.now.end }
    {
        self.end // the next text is put there
    }

    // Puts a text behind the one that is there; all other bytes stay.
    pub fn put_text(&mut self, text: &[u8])
        requires { self.old.end + length text.now ≤ length self.old.bytes.now }
        ensures { Puts self.old text.now self.new }
    {
        let end = self.end + text.len();
        self.bytes[self.end..end].copy_from_slice(text);
        self.end = end;
    }

    // Puts a number behind the text that is there; all other bytes stay.
    #[tactic(auto, using(crate::proofs::Digits::length_one, crate::proofs::Digits::length_more))]
    pub fn put_decimal(&mut self, number: u64)
        requires { self.old.end + length (decimal_of number) ≤ length self.old.bytes.now }
        ensures { Puts self.old (decimal_of number) self.new }
    {
        if number < 10 {
            return self.put_text(&[b'0' + number as u8]);
        }
        self.put_decimal(number / 10);
        self.put_text(&[b'0' + (number % 10) as u8]);
    }
}
