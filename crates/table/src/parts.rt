//! States, links and refusals.
ghost use Rattle.std.specs.Prelude.{◌≡◌};
ghost use Rattle.table.specs.Origins.{origin_of};
ghost use Rattle.table.specs.Refusals.{number_of};

use room::Room;

/// The most states that a table holds.
pub const MAX_STATES: u16 = 1024;

/// The most links that a table holds.
pub const MAX_LINKS: u16 = 4096;

// A const argument is not computed, so the limits stand here once more.

/// A list with an item for each state.
pub type PerState<T> = Room<T, 1024>;

/// A list with an item for each link.
pub type PerLink<T> = Room<T, 4096>;

/// A list with an item for each node of the record of splits: at most two for each state.
pub type PerNode<T> = Room<T, 2048>;

/// A state, whose number is its place in the table.
#[derive(Clone, Copy, PartialEq, Eq, Debug)]
pub struct State {
    pub sort: u8,
    pub output: u16,
}

/// A link from one state to another; in the field a transition.
#[derive(Clone, Copy, PartialEq, Eq, Debug)]
pub struct Link {
    pub source: u16,
    pub label: u8,
    pub weight: i32,
    pub target: u16,
}

/// Where a node of the record of splits comes from: the node that was split, the label and the marker by which it was split,
/// and the figure that the states of the new node have for them.
#[derive(Clone, Copy, PartialEq, Eq, Debug)]
pub struct Origin {
    pub parent: u16,
    pub label: u8,
    pub marker: u16,
    pub figure: i64,
}

/// A node of the record of splits, which stands for a set of states.
#[derive(Clone, Copy, PartialEq, Eq, Debug)]
pub enum Node {
    /// The states of one sort and output.
    Start(State),
    /// The states of another node that have one figure.
    Part(Origin),
}

impl Node {
    /// Where the node comes from: a starting node comes from none.
    pub fn origin(self) -> Option<Origin>
        ensures { result ≡ origin_of self }
    {
        match self {
            Node::Start(_) => None,
            Node::Part(origin) => Some(origin),
        }
    }
}

/// Why a call is not carried out, with the number by which users know it.
#[derive(Clone, Copy, PartialEq, Eq, Debug)]
pub enum Refusal {
    /// Adding, linking or settling a settled table.
    AlreadySettled = 1,
    /// Asking an open table for what only a settled one has.
    NotSettled = 2,
    /// One state or link too many.
    Full = 3,
    /// A sort above 3.
    BadSort = 4,
    /// The number of a state or node that is not there.
    NoSuchNumber = 5,
    /// A label above 63.
    BadLabel = 6,
    /// A file that ends before a field is whole.
    CutShort = 7,
    /// Bytes after the links of a file.
    TrailingBytes = 8,
    /// More to write than the buffer holds.
    NoRoom = 9,
}

impl Refusal {
    /// The number by which users know it.
    pub fn number(self) -> u8
        ensures { result ≡ number_of self }
    {
        self as u8
    }
}
