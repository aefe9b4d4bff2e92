//! Numbers for the groups of states, and for the sorts and outputs that the states have.
#![tactic(auto)]

ghost use Rattle.std.specs.Prelude.{◌≡◌, ◌<◌, ◌≤◌, ◌∷◌, ◌++◌, [], length, position};
ghost use Rattle.std.specs.List.{AllWithin};
ghost use Rattle.table.specs.Numbering.{group_count, group_numbers};
ghost use Rattle.numbering.specs.Blocks.{Numbered, at, number_at, given, numbers_after, next_after};
ghost use Rattle.numbering.specs.Kinds.{same_kind, Kinds};

use table::parts::{PerNode, PerState, State};

/// Numbers the groups of states by their smallest states: state x is in block `blocks[x]`, and `groups` gets its group's number.
/// Answers how many groups there are. `numbers` is scratch: the number that each block has so far.
pub fn number_groups(
    blocks: &[u16],
    numbers: &mut PerNode<Option<u16>>,
    groups: &mut PerState<u16>,
) -> u16
    requires few { length blocks.now ≤ 1024 }
    requires low { AllWithin (λ b. b < 2048) blocks.now 0 (length blocks.now) }
    ensures groups { groups.new ≡ group_numbers (at blocks.now) (length blocks.now) }
    ensures count { result ≡ group_count (at blocks.now) (length blocks.now) }
{
    numbers.fill(2048, None);
    groups.clear();
    number_all(blocks, numbers, groups)
}

// Numbers the states in order, where no block has a number yet, and answers how many numbers were given.
fn number_all(blocks: &[u16], numbers: &mut PerNode<Option<u16>>, groups: &mut PerState<u16>) -> u16
    requires few { length blocks.now ≤ 1024 }
    requires low { AllWithin (λ b. b < 2048) blocks.now 0 (length blocks.now) }
    requires start { Numbered (at blocks.now) 0 numbers.old 0 groups.old }
    ensures groups { groups.new ≡ group_numbers (at blocks.now) (length blocks.now) }
    ensures count { result ≡ group_count (at blocks.now) (length blocks.now) }
{
    let mut next = 0;
    for block in blocks {
        next = number_state(*block, next, numbers, groups);
    }
    // every number below the next was given
    next
}

// A state of a block with a number gets that number, and one of a block without gets the next. Answers the next number after it.
fn number_state(
    block: u16,
    next: u16,
    numbers: &mut PerNode<Option<u16>>,
    groups: &mut PerState<u16>,
) -> u16
    requires low { block < length numbers.old }
    requires few { next ≤ 1024 }
    requires room { length groups.old < 1024 }
    ensures groups { groups.new ≡ groups.old ++ given (number_at numbers.old block) next ∷ [] }
    ensures numbers { numbers.new ≡ numbers_after (number_at numbers.old block) numbers.old block next }
    ensures next { result ≡ next_after (number_at numbers.old block) next }
{
    match numbers[block as usize] {
        Some(number) => {
            groups.push(number);
            next
        }
        None => {
            groups.push(next);
            numbers[block as usize] = Some(next);
            next + 1
        }
    }
}

/// For each state the smallest state of its sort and output, as the figures by which a row is first cut.
pub fn find_kinds(states: &[State], kinds: &mut PerState<i64>)
    requires few { length states.now ≤ 1024 }
    ensures len { length kinds.new ≡ length states.now }
    ensures each { Kinds states.now kinds.new }
{
    kinds.clear();
    for (x, state) in states.iter().enumerate() {
        let kind = find_alike(&states[..x], *state).unwrap_or(x);
        kinds.push(kind as i64);
    }
}

// The first of some states that has the sort and the output of another.
fn find_alike(states: &[State], wanted: State) -> Option<usize>
    ensures { result ≡ position (same_kind wanted) states.now }
{
    states.iter().position(|state| wanted == *state)
}
