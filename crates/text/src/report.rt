//! The report of a settled table.
ghost use Rattle.std.specs.Prelude.{◌≡◌, length};
ghost use Rattle.text.specs.Buffer.{Wrote, fits_at, whole_answer, whole_buffer};
ghost use Rattle.text.specs.Report.{head_of, line_of, lines_from, text_of};

use crate::buffer::{Buffer, Mode, decimal_len};
use table::parts::Refusal;

/// What the report of a settled table tells: how many links there are, the groups of the states in order, and how many groups there
/// are.
#[derive(Clone, Copy)]
pub struct Report<'a> {
    pub links: usize,
    pub groups: &'a [u16],
    pub count: u16,
}

// Writes the line of a state.
fn put_line(out: &mut Buffer<'_>, state: usize, group: u16) -> Result<(), Refusal>
    ensures { Wrote out.old (line_of state group) result out.new }
{
    // what is only measured needs no digits
    if out.measures() {
        return out.count(decimal_len(state as u64) + decimal_len(u64::from(group)) + 2);
    }
    out.put_number(state)?;
    out.put_number_after(b" ", group)?;
    out.put(b'\n')
}

impl Report<'_> {
    // Writes how many states, links and groups there are.
    fn put_head(&self, out: &mut Buffer<'_>) -> Result<(), Refusal>
        ensures { Wrote out.old (head_of (length self.now.groups.now) self.now.links self.now.count) result out.new }
    {
        out.put_number_after(b"states ", self.groups.len())?;
        out.put_number_after(b" links ", self.links)?;
        out.put_number_after(b" groups ", self.count)?;
        out.put(b'\n')
    }

    // Writes a line for each state.
    fn put_lines(&self, out: &mut Buffer<'_>) -> Result<(), Refusal>
        ensures { Wrote out.old (lines_from 0 self.now.groups.now) result out.new }
    {
        for (state, group) in self.groups.iter().enumerate() {
            put_line(out, state, *group)?;
        }
        Ok(())
    }

    // Writes the whole report, as far as it fits.
    fn put_into(&self, out: &mut Buffer<'_>) -> Result<(), Refusal>
        ensures { Wrote out.old (text_of self.now) result out.new }
    {
        self.put_head(out)?;
        self.put_lines(out)
    }

    // Whether the report fits into a buffer, which is left alone.
    fn measure(&self, out: &mut [u8]) -> Result<(), Refusal>
        ensures answer { result ≡ fits_at (length out.old) 0 (length (text_of self.now)) }
        ensures buffer { out.new ≡ out.old }
    {
        self.put_into(&mut Buffer::new(out, Mode::Measure))
    }

    /// Writes the report into a buffer, and answers its length. A report that is longer than the buffer is refused, and the buffer
    /// is left alone.
    pub fn write_to(&self, out: &mut [u8]) -> Result<usize, Refusal>
        ensures answer { result ≡ whole_answer out.old (text_of self.now) }
        ensures buffer { out.new ≡ whole_buffer out.old (text_of self.now) }
    {
        self.measure(out)?;
        let mut buffer = Buffer::new(out, Mode::Write);
        self.put_into(&mut buffer)?;
        Ok(buffer.len())
    }
}
