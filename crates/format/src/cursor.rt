//! The layer of bytes: fields of so many bytes, one after the other.
ghost use Rattle.std.specs.Prelude.{◌≡◌, ◌+◌, ◌<◌, ◌≤◌, length, OnErr};
ghost use Rattle.format.specs.Walk.{bytes_at};

use fault::{ByteFault, Place};

/// A place in a file, and the item that its next field belongs to.
#[derive(Drop)]
pub struct Cursor<'a> {
    bytes: &'a [u8],
    offset: usize,
    item: u16,
    ghost within: { offset ≤ length bytes.now },
}

impl<'a> Cursor<'a> {
    ghost use Rattle.format.specs.Steps.{here, Onward};

    /// The beginning of a file.
    pub fn new(bytes: &'a [u8]) -> Cursor<'a>
        ensures bytes { result.bytes.now ≡ bytes.now }
        ensures start { (result.offset ≡ 0) × (result.item ≡ 0) }
    {
        Cursor {
            bytes,
            offset: 0,
            item: 0,
        }
    }

    /// The place of the next field.
    pub fn place(&self) -> Place
        ensures { result ≡ record { offset = self.now.offset; item = self.now.item } }
    {
        Place {
            offset: self.offset,
            item: self.item,
        }
    }

    /// The next field belongs to the state or link with this number; its item is one more.
    pub fn begin_item(&mut self, number: u16)
        requires { number < 4096 }
        ensures item { self.new.item ≡ number + 1 }
        ensures same { (self.new.bytes.now ≡ self.old.bytes.now) × (self.new.offset ≡ self.old.offset) }
    {
        self.item = number + 1;
    }

    /// The next field is a count.
    pub fn begin_count(&mut self)
        ensures item { self.new.item ≡ 0 }
        ensures same { (self.new.bytes.now ≡ self.old.bytes.now) × (self.new.offset ≡ self.old.offset) }
    {
        self.item = 0;
    }

    /// The bytes of the next field, if it is whole; the cursor goes past it.
    pub fn take<const N: usize>(&mut self) -> Result<[u8; N], ByteFault>
        ensures value { result ≡ here (bytes_at N) self.old }
        ensures cursor { Onward result N self.old self.new }
        ensures refused { OnErr result (self.new.offset ≡ self.old.offset) }
    {
        let place = self.place();
        let bytes = self.bytes[self.offset..]
            .first_chunk()
            .ok_or(ByteFault { place })?;
        self.offset += N;
        Ok(*bytes)
    }
}
