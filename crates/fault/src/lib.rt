//! What can be wrong with a file, layer by layer: bytes, section, table.
#![tactic(auto)]

ghost use Rattle.std.specs.Prelude.{◌≡◌, Some};
ghost use Rattle.table.specs.declared.parts.Refusal.{Refusal};
ghost use Rattle.fault.specs.declared.SectionFault.TheVariants.{Cut};
ghost use Rattle.fault.specs.declared.TableFault.TheVariants.{States, Links};
ghost use Rattle.fault.specs.Faults.{section_place, section_refusal, states_refusal, links_refusal, refusal_of, table_place, section_of, section_number, line_of};

use std::fmt;
use table::parts::Refusal;

/// Where a field stands: the offset of its first byte, and its item, from 1; 0 is a count. It is no `Option`, since the line of a fault says 0.
#[derive(Clone, Copy, PartialEq, Eq, Debug)]
pub struct Place {
    pub offset: usize,
    pub item: u16,
}

/// The layer of bytes: the file ends before a field is whole.
#[derive(Clone, Copy, PartialEq, Eq, Debug)]
pub struct ByteFault {
    pub place: Place,
}

/// The layer of a section: a field is cut, or the value of field F is not allowed.
#[derive(Clone, Copy, PartialEq, Eq, Debug)]
pub enum SectionFault<F> {
    Cut(ByteFault),
    Value { field: F, place: Place },
}

/// The fields of the states whose values are checked.
#[derive(Clone, Copy, PartialEq, Eq, Debug)]
pub enum StatesField {
    Count,
    Sort,
}

/// The fields of the links whose values are checked.
#[derive(Clone, Copy, PartialEq, Eq, Debug)]
pub enum LinksField {
    Count,
    Source,
    Label,
    Target,
}

/// A fault of the section of states.
pub type StatesFault = SectionFault<StatesField>;

/// A fault of the section of links.
pub type LinksFault = SectionFault<LinksField>;

/// The whole file: a fault of a section, or bytes after the links.
#[derive(Clone, Copy, PartialEq, Eq, Debug)]
pub enum TableFault {
    States(StatesFault),
    Links(LinksFault),
    After { offset: usize },
}

/// The sections of a file, with the numbers by which users know them.
#[derive(Clone, Copy, PartialEq, Eq, Debug)]
pub enum Section {
    States = 1,
    Links = 2,
    End = 3,
}

impl Section {
    /// The number by which users know it.
    pub fn number(self) -> u8
        ensures { result ≡ section_number self }
    {
        self as u8
    }
}

impl<F> From<ByteFault> for SectionFault<F> {
    ghost from_gives = { λ x r. r ≡ Cut x };

    fn from(x: ByteFault) -> SectionFault<F> {
        SectionFault::Cut(x)
    }
}

// One for each section: a `From` over the field would not know which case it is.
impl From<StatesFault> for TableFault {
    ghost from_gives = { λ x r. r ≡ States x };

    fn from(x: StatesFault) -> TableFault {
        TableFault::States(x)
    }
}

impl From<LinksFault> for TableFault {
    ghost from_gives = { λ x r. r ≡ Links x };

    fn from(x: LinksFault) -> TableFault {
        TableFault::Links(x)
    }
}

/// A field whose value is checked.
pub trait Field: Copy {
    // why a value that is not allowed there is refused
    ghost refused: { Self → Refusal };

    fn refusal(self) -> Refusal
        ensures { result ≡ refused self };
}

impl Field for StatesField {
    ghost refused = { states_refusal };

    fn refusal(self) -> Refusal {
        match self {
            StatesField::Count => Refusal::Full,
            StatesField::Sort => Refusal::BadSort,
        }
    }
}

impl Field for LinksField {
    ghost refused = { links_refusal };

    fn refusal(self) -> Refusal {
        match self {
            LinksField::Count => Refusal::Full,
            LinksField::Source | LinksField::Target => Refusal::NoSuchNumber,
            LinksField::Label => Refusal::BadLabel,
        }
    }
}

impl<F: Field> SectionFault<F> {
    /// Why the file is refused.
    pub fn refusal(self) -> Refusal
        ensures { result ≡ section_refusal F.refused self }
    {
        match self {
            SectionFault::Cut(_) => Refusal::CutShort,
            SectionFault::Value { field, .. } => field.refusal(),
        }
    }

    /// The place of the field.
    pub fn place(self) -> Place
        ensures { result ≡ section_place self }
    {
        match self {
            SectionFault::Cut(fault) => fault.place,
            SectionFault::Value { place, .. } => place,
        }
    }
}

impl TableFault {
    /// Why the file is refused.
    pub fn refusal(self) -> Refusal
        ensures { result ≡ refusal_of self }
    {
        match self {
            TableFault::States(fault) => fault.refusal(),
            TableFault::Links(fault) => fault.refusal(),
            TableFault::After { .. } => Refusal::TrailingBytes,
        }
    }

    /// The place of the field: its offset and item.
    pub fn place(self) -> Place
        ensures { result ≡ table_place self }
    {
        match self {
            TableFault::States(fault) => fault.place(),
            TableFault::Links(fault) => fault.place(),
            TableFault::After { offset } => Place { offset, item: 0 },
        }
    }

    /// The section that the fault is found in.
    pub fn section(self) -> Section
        ensures { result ≡ section_of self }
    {
        match self {
            TableFault::States(_) => Section::States,
            TableFault::Links(_) => Section::Links,
            TableFault::After { .. } => Section::End,
        }
    }
}

/// One line, as `refused 7 byte 2 section 2 item 0`.
impl fmt::Display for TableFault {
    ghost output = { λ f. Some (line_of f) };

    fn fmt<W: fmt::Write>(&self, f: &mut fmt::Formatter<W>) -> fmt::Result {
        let number = self.refusal().number();
        let Place { offset, item } = self.place();
        let section = self.section().number();
        write!(
            f,
            "refused {number} byte {offset} section {section} item {item}"
        )
    }
}
