//! Reading: the sections of states and links, each field checked as soon as it is taken, and the whole file.
ghost use Rattle.std.specs.Prelude.{◌≡◌, ℕ, ◌+◌, ◌*◌, ◌<◌, ◌≤◌, ◌↔◌, ltb, List, [], ◌++◌, length, Ok};
ghost use Rattle.table.specs.System.{System, size};
ghost use Rattle.format.specs.Encode.{FileOf};
ghost use Rattle.table.specs.Charts.{no_system};
ghost use Rattle.format.specs.Walk.{checked_at, state_fields, state_items, states_section, end_at, weight_at, link_fields, link_items, links_section, states_end, decode};
ghost use Rattle.format.specs.Answers.{answer_of, system_in};
ghost use Rattle.format.specs.Steps.{here, Onward, Follows};

use crate::cursor::Cursor;
use fault::{
    ByteFault, LinksFault, LinksField, SectionFault, StatesFault, StatesField, TableFault,
};
use table::chart::Chart;
use table::parts::{Link, MAX_LINKS, MAX_STATES, State};

/// The bytes of the longest file that is accepted: 1,024 states and 4,096 links.
pub const LONGEST_FILE: usize = 39_940;

// Three checked fields, of one byte or two and with another limit each: for one function, a trait would have to say what bytes amount to.

// The count of a section, which has at most so many items.
fn take_count<F: Drop>(cursor: &mut Cursor, field: F, most: u16) -> Result<u16, SectionFault<F>>
    ensures value { result ≡ here (checked_at field (ltb most) 2) (record cursor.old { item = 0 }) }
    ensures cursor { Onward result 2 (record cursor.old { item = 0 }) cursor.new }
{
    cursor.begin_count();
    let place = cursor.place();
    let count = u16::from_le_bytes(cursor.take()?);
    (count <= most)
        .then_some(count)
        .ok_or(SectionFault::Value { field, place })
}

// A field of one byte, which is at most so much.
fn take_byte<F: Drop>(cursor: &mut Cursor, field: F, most: u8) -> Result<u8, SectionFault<F>>
    ensures value { result ≡ here (checked_at field (ltb most) 1) cursor.old }
    ensures cursor { Onward result 1 cursor.old cursor.new }
{
    let place = cursor.place();
    let [byte] = cursor.take::<1>()?;
    (byte <= most)
        .then_some(byte)
        .ok_or(SectionFault::Value { field, place })
}

// The weight of a link.
fn take_weight(cursor: &mut Cursor) -> Result<i32, ByteFault>
    ensures value { result ≡ here weight_at cursor.old }
    ensures cursor { Onward result 4 cursor.old cursor.new }
{
    Ok(i32::from_le_bytes(cursor.take()?))
}

// The source or the target of a link, in a file of `size` states.
fn take_end(cursor: &mut Cursor, field: LinksField, size: usize) -> Result<u16, LinksFault>
    ensures value { result ≡ here (end_at field size) cursor.old }
    ensures cursor { Onward result 2 cursor.old cursor.new }
{
    let place = cursor.place();
    let end = u16::from_le_bytes(cursor.take()?);
    (usize::from(end) < size)
        .then_some(end)
        .ok_or(SectionFault::Value { field, place })
}

// The state at the cursor, with this number; its item is one more.
fn read_state(cursor: &mut Cursor, number: u16) -> Result<State, StatesFault>
    requires { number < 1024 }
    ensures value { result ≡ here state_fields (record cursor.old { item = number + 1 }) }
    ensures cursor { Onward result 3 (record cursor.old { item = number + 1 }) cursor.new }
{
    cursor.begin_item(number);
    let sort = take_byte(cursor, StatesField::Sort, 3)?;
    let output = u16::from_le_bytes(cursor.take()?);
    Ok(State { sort, output })
}

// The link at the cursor, with this number, in a file of `size` states; its item is one more.
fn read_link(cursor: &mut Cursor, number: u16, size: usize) -> Result<Link, LinksFault>
    requires { number < 4096 }
    ensures value { result ≡ here (link_fields size) (record cursor.old { item = number + 1 }) }
    ensures cursor { Onward result 9 (record cursor.old { item = number + 1 }) cursor.new }
{
    cursor.begin_item(number);
    let source = take_end(cursor, LinksField::Source, size)?;
    let label = take_byte(cursor, LinksField::Label, 63)?;
    let weight = take_weight(cursor)?;
    let target = take_end(cursor, LinksField::Target, size)?;
    Ok(Link {
        source,
        label,
        weight,
        target,
    })
}

// States and links are read by two functions of one shape: one function for both would take its reader and its adder from closures or
// a trait, and what it says of them would be longer than the two. Nor are the cursor and the chart one struct: the cursor is made here,
// and the chart is lent, without links or without anything, as each section finds it. A loop runs over the numbers of the items, which
// their places in the file are told by.

// So many states, into a chart that has none.
fn read_states(cursor: &mut Cursor, chart: &mut Chart, count: u16) -> Result<(), StatesFault>
    requires few { count ≤ 1024 }
    requires offset { cursor.old.offset ≡ 2 }
    requires none { chart.old ≡ no_system }
    ensures { Follows (state_items cursor.old.bytes.now 2 1 [] count) result (λ states. (chart.new ≡ record { states = states; links = [] }) × (cursor.new.offset ≡ states_end (length states)) × (cursor.new.bytes.now ≡ cursor.old.bytes.now)) }
{
    for number in 0..count {
        let state = read_state(cursor, number)?;
        // checked already, so it is not refused
        let _ = chart.add_state(state);
    }
    Ok(())
}

// So many links, into a chart that has states and no links.
fn read_links(cursor: &mut Cursor, chart: &mut Chart, count: u16) -> Result<(), LinksFault>
    requires few { count ≤ 4096 }
    requires none { chart.old.links ≡ [] }
    ensures { Follows (link_items (size chart.old) cursor.old.bytes.now cursor.old.offset 1 [] count) result (λ links. (chart.new ≡ record { states = chart.old.states; links = links }) × (cursor.new.offset ≡ cursor.old.offset + 9 * length links)) }
{
    let size = chart.states().len();
    for number in 0..count {
        let link = read_link(cursor, number, size)?;
        // checked already, so it is not refused
        let _ = chart.add_link(link);
    }
    Ok(())
}

// The section of states, into a chart that has none.
fn states_section(cursor: &mut Cursor, chart: &mut Chart) -> Result<(), StatesFault>
    requires start { cursor.old.offset ≡ 0 }
    requires none { chart.old ≡ no_system }
    ensures { Follows (states_section cursor.old.bytes.now) result (λ states. (chart.new ≡ record { states = states; links = [] }) × (cursor.new.offset ≡ states_end (length states)) × (cursor.new.bytes.now ≡ cursor.old.bytes.now)) }
{
    let count = take_count(cursor, StatesField::Count, MAX_STATES)?;
    read_states(cursor, chart, count)
}

// The section of links, into a chart that has states and no links.
fn links_section(cursor: &mut Cursor, chart: &mut Chart) -> Result<(), LinksFault>
    requires none { chart.old.links ≡ [] }
    ensures { Follows (links_section (size chart.old) cursor.old.bytes.now cursor.old.offset) result (λ links. (chart.new ≡ record { states = chart.old.states; links = links }) × (cursor.new.offset ≡ cursor.old.offset + 2 + 9 * length links)) }
{
    let count = take_count(cursor, LinksField::Count, MAX_LINKS)?;
    read_links(cursor, chart, count)
}

// The whole file, into a chart that has nothing.
fn read_file(bytes: &[u8], chart: &mut Chart) -> Result<(), TableFault>
    requires { chart.old ≡ no_system }
    ensures { Follows (decode bytes.now) result (λ t. chart.new ≡ t) }
{
    let mut cursor = Cursor::new(bytes);
    states_section(&mut cursor, chart)?;
    links_section(&mut cursor, chart)?;
    let end = cursor.place().offset;
    if end < bytes.len() {
        return Err(TableFault::After { offset: end });
    }
    Ok(())
}

// The whole file, into any chart, which a refused file leaves empty.
fn read_or_empty(bytes: &[u8], chart: &mut Chart) -> Result<(), TableFault>
    ensures answer { result ≡ answer_of (decode bytes.now) }
    ensures after { chart.new ≡ system_in (decode bytes.now) }
{
    chart.clear();
    let answer = read_file(bytes, chart);
    if answer.is_err() {
        chart.clear();
    }
    answer
}

// What reading amounts to for the whole file is proved here, apart from the work.
/// Reads a file: its states and links are then what the chart holds. A refused file leaves the chart empty.
pub fn read(bytes: &[u8], chart: &mut Chart) -> Result<(), TableFault>
    ensures answer { result ≡ answer_of (decode bytes.now) }
    ensures after { chart.new ≡ system_in (decode bytes.now) }
    ensures longest { (more : List ℕ) → 39940 < length bytes.now → decode (bytes.now ++ more) ≡ decode bytes.now }
    ensures file { (t : System) → ((result ≡ Ok tt) × (chart.new ≡ t)) ↔ FileOf t bytes.now }
{
    read_or_empty(bytes, chart)
}
