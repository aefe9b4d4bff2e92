//! A lent buffer that texts are written into, one after another.
ghost use Rattle.std.specs.Prelude.{◌≡◌, ◌≤◌, [], ◌∷◌, ◌++◌, length, decimal, MatchBool};
ghost use Rattle.text.specs.Buffer.{Wrote, fits_at, stands_at};
ghost use Rattle.text.specs.declared.buffer.Mode.TheVariants.{Write, Measure};

use itoa::Integer;
use table::parts::Refusal;

/// What is done with bytes: they are written, or they are counted alone, to measure whether a text fits.
#[derive(Clone, Copy, PartialEq, Eq, Debug)]
pub enum Mode {
    Write,
    Measure,
}

/// A lent buffer that is filled from its front, byte after byte, until it is full; to measure a text, its bytes are only counted.
// Not a `fmt::Write` for `write!`, nor an `io::Cursor`: of a writer that failed the first says nothing, and the second not that it still
// holds the same buffer. And one struct with a mode, not two with a trait: the trait's impls would be the cases of `put` and `put_all`.
#[derive(Drop)]
pub struct Buffer<'a> {
    out: &'a mut [u8],
    // how many bytes were written, or counted
    len: usize,
    mode: Mode,
}

impl<'a> Buffer<'a> {
    /// Nothing is written yet.
    pub fn new(out: &'a mut [u8], mode: Mode) -> Buffer<'a>
        ensures { result ≡ record { out = out.entry; len = 0; mode = mode } }
    {
        Buffer { out, len: 0, mode }
    }

    /// How many bytes were written so far: where the next one goes.
    pub fn len(&self) -> usize
        ensures { result ≡ self.now.len }
    {
        let written = self.len;
        written
    }

    /// Whether texts are only measured.
    pub(crate) fn measures(&self) -> bool
        ensures { MatchBool result (self.now.mode ≡ Measure) (self.now.mode ≡ Write) }
    {
        self.mode == Mode::Measure
    }

    /// Counts so many bytes, as far as there is room for them.
    pub(crate) fn count(&mut self, bytes: usize) -> Result<(), Refusal>
        ensures answer { result ≡ fits_at (length self.old.out.now) self.old.len bytes }
        ensures after { self.new ≡ record self.old { len = stands_at (length self.old.out.now) self.old.len bytes } }
    {
        let room = self.out.len().saturating_sub(self.len);
        if bytes > room {
            self.len += room;
            return Err(Refusal::NoRoom);
        }
        self.len += bytes;
        Ok(())
    }

    // Writes one byte.
    fn write(&mut self, byte: u8) -> Result<(), Refusal>
        requires { self.old.mode ≡ Write }
        ensures { Wrote self.old (byte ∷ []) result self.new }
    {
        let at = self.len;
        if at >= self.out.len() {
            return Err(Refusal::NoRoom);
        }
        self.out[at] = byte;
        self.len = at + 1;
        Ok(())
    }

    /// Writes one byte. Where there is no room, this and the other writers refuse, and leave what was written before.
    pub fn put(&mut self, byte: u8) -> Result<(), Refusal>
        ensures { Wrote self.old (byte ∷ []) result self.new }
    {
        match self.mode {
            Mode::Write => self.write(byte),
            Mode::Measure => self.count(1),
        }
    }

    /// Writes some bytes, as far as there is room for them.
    pub fn put_all(&mut self, bytes: &[u8]) -> Result<(), Refusal>
        ensures { Wrote self.old bytes.now result self.new }
    {
        if self.measures() {
            return self.count(bytes.len());
        }
        for byte in bytes {
            self.write(*byte)?;
        }
        Ok(())
    }

    /// Writes a number in base ten.
    pub fn put_number<I: Integer>(&mut self, n: I) -> Result<(), Refusal>
        ensures { Wrote self.old (I.text n) result self.new }
    {
        let mut digits = itoa::Buffer::new();
        self.put_all(digits.format(n).as_bytes())
    }

    /// Writes a word, and a number after it.
    pub fn put_number_after<I: Integer>(&mut self, word: &[u8], n: I) -> Result<(), Refusal>
        ensures { Wrote self.old (word.now ++ I.text n) result self.new }
    {
        self.put_all(word)?;
        self.put_number(n)
    }
}

/// How many bytes a number has in base ten.
pub fn decimal_len(n: u64) -> usize
    ensures value { result ≡ length (decimal n) }
    ensures few { result ≤ 20 }
{
    if n < 10 {
        return 1;
    }
    1 + decimal_len(n / 10)
}
