// Bytes put into a row of 512, one after another.
ghost use Rattle.std.specs.Prelude.{◌≡◌, ◌+◌, ◌/◌, ◌%◌, ◌<◌, ◌≤◌, [], ◌∷◌, length, decimal};
ghost use Rattle.std.proofs.Math.Utf8.{encode};
ghost use Rattle.dialect.specs.Puts.{Put, Wrote, Writes};

// The digits of a number below 100 at two places of the row, and the place behind them.
#[inline(always)]
fn put_pair(out: &mut [u8; 512], at: usize, n: u32) -> usize
    requires { (n < 100) × (at + 2 ≤ 512) }
    ensures { Wrote out.old at ((48 + n / 10) ∷ (48 + n % 10) ∷ []) out.new result }
{
    out[at] = b'0' + (n / 10) as u8;
    out[at + 1] = b'0' + (n % 10) as u8;
    at + 2
}

// A number of one or two digits.
#[inline(always)]
fn put_short(out: &mut [u8; 512], at: usize, n: u32) -> usize
    requires { (n < 100) × (at + length (decimal n) ≤ 512) }
    ensures { Wrote out.old at (decimal n) out.new result }
{
    if n < 10 {
        out[at] = b'0' + n as u8;
        return at + 1;
    }
    put_pair(out, at, n)
}

// A number's digits at a place of the row, two at a time, and the place behind them. By the row and the place: a pen
// that lends its own address would stand in memory for all that it puts.
fn put_decimal(out: &mut [u8; 512], at: usize, n: u32) -> usize
    requires { at + length (decimal n) ≤ 512 }
    ensures { Wrote out.old at (decimal n) out.new result }
{
    if n < 100 {
        return put_short(out, at, n);
    }
    if n < 10000 {
        let tens = put_short(out, at, n / 100);
        return put_pair(out, tens, n % 100);
    }
    let hundreds = put_decimal(out, at, n / 10000);
    let tens = put_pair(out, hundreds, n / 100 % 100);
    put_pair(out, tens, n % 100)
}

// The bytes of a character beyond ASCII at a place of the row, and the place behind them. Apart from the one byte of
// most characters, which needs no call.
#[inline(never)]
fn put_wide(out: &mut [u8; 512], at: usize, c: char) -> usize
    requires { at + 4 ≤ 512 }
    ensures { Wrote out.old at (encode c) out.new result }
{
    let mut pen = Pen::new(out, at);
    pen.bytes(c.encode_utf8(&mut [0; 4]).as_bytes());
    pen.count()
}

// A row, and the place in it where the next byte goes: no vector, since the row is the caller's and its rest stays.
#[derive(Drop)]
pub struct Pen<'a> {
    out: &'a mut [u8; 512],
    at: usize,
}

impl<'a> Pen<'a> {
    #[inline(always)]
    pub fn new(out: &'a mut [u8; 512], at: usize) -> Pen<'a>
        ensures row { result.out ≡ out.entry }
        ensures place { result.at ≡ at }
    {
        Pen { out, at }
    }

    // How many bytes stand before the place.
    #[inline(always)]
    pub fn count(&self) -> usize
        ensures { result ≡ self.now.at }
    {
        self.at
    }

    // What is put here and below has few bytes: its room is a premise, and putting it cannot fail.
    #[inline(always)]
    pub(crate) fn byte(&mut self, b: u8)
        requires { self.old.at < 512 }
        ensures { Writes self.old (b ∷ []) self.new }
    {
        self.out[self.at] = b;
        self.at += 1;
    }

    // Where the bytes would pass the end, none is put, and the place stays.
    #[inline(always)]
    pub fn bytes(&mut self, bytes: &[u8])
        ensures put { Put self.old.out.now self.old.at bytes.now self.new.out.now self.new.at }
        ensures same_row { self.new.out.ghost_name ≡ self.old.out.ghost_name }
    {
        if self.at > 512 || 512 - self.at < bytes.len() {
            return;
        }
        let end = self.at + bytes.len();
        let row = &mut *self.out;
        row[self.at..end].copy_from_slice(bytes);
        self.at = end;
    }

    // A code point's number in decimal, of at most seven digits.
    #[inline(always)]
    pub(crate) fn code(&mut self, n: u32)
        requires { (n ≤ 1114111) × (self.old.at + 7 ≤ 512) }
        ensures wrote { Writes self.old (decimal n) self.new }
        ensures near { self.new.at ≤ self.old.at + 7 }
    {
        self.at = put_decimal(self.out, self.at, n);
    }

    // A character in UTF-8.
    #[inline(always)]
    pub(crate) fn char(&mut self, c: char)
        requires { self.old.at + 4 ≤ 512 }
        ensures { Writes self.old (encode c) self.new }
    {
        if c.is_ascii() {
            self.byte(c as u8);
        } else {
            self.at = put_wide(self.out, self.at, c);
        }
    }
}

// Puts bytes at a place of the row, and answers the place behind them. Where they would pass the end, none is put, and
// the place stays.
pub fn put_bytes(out: &mut [u8; 512], at: usize, bytes: &[u8]) -> usize
    ensures { Put out.old at bytes.now out.new result }
{
    let mut pen = Pen::new(out, at);
    pen.bytes(bytes);
    pen.count()
}
