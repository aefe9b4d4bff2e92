//! What the programs do: read a file, settle its table and report the groups, or say why the file is refused.
#![tactic(auto)]

ghost use Rattle.std.specs.Prelude.{◌≡◌, [], ◌∷◌, ◌++◌, IfOk, None, string_bytes};
ghost use Rattle.fault.specs.Faults.{line_of};
ghost use Rattle.format.specs.Walk.{decode};
ghost use Rattle.table.specs.System.{Small};
ghost use Rattle.console.specs.Answer.{Written, Reported, Printed};

use fault::TableFault;
use folder::tables::Table;
use format::reading::LONGEST_FILE;
use std::alloc::{AllocError, Global};
use std::io::{Read, Write};
use std::process::ExitCode;
use table::parts::Refusal;
use weigher::Weigher;

/// The bytes of the longest report: 1,024 states, each alone in its group, and 4,096 links.
pub const LONGEST_REPORT: usize = 10_275;

/// What is printed about a file: the report of its table, or else the line that says why it is refused.
pub type Answer = Result<Vec<u8>, String>;

// Settles an open table and writes its report.
fn write_settled<W: Weigher>(table: &mut Table<W>, out: &mut [u8]) -> Result<usize, Refusal>
    ensures written { table.old.settlement ≡ None → Written (W.figure table.old.pile) table.old.system out.old result out.new }
    ensures small { table.old.settlement ≡ None → Small table.old.system }
{
    table.settle()?;
    table.report(out)
}

// The report of an open table, which is settled for it.
fn settled_report<W: Weigher>(heap: Global, table: &mut Table<W>) -> Result<Vec<u8>, AllocError>
    ensures { IfOk result (λ text. table.old.settlement ≡ None → Reported (W.figure table.old.pile) table.old.system text.items) }
{
    let mut text = vec![in heap; 0; LONGEST_REPORT]?;
    let len = write_settled(table, text.as_mut_slice()).unwrap_or(0);
    text.truncate(len);
    Ok(text)
}

// The line that says why a file is refused.
fn refusal_line(heap: Global, fault: TableFault) -> Result<String, AllocError>
    ensures { IfOk result (λ line. string_bytes line ≡ line_of fault ++ 10 ∷ []) }
{
    format!(in heap; "{fault}\n")
}

/// Reads a file from memory, settles its table over the pile, and says what there is to print.
pub fn answer_file<W: Weigher>(heap: Global, pile: W, bytes: &[u8]) -> Result<Answer, AllocError>
where
    W: Drop,
    ensures { IfOk result (λ a. Printed (W.figure pile) (decode bytes.now) a) }
{
    let mut table = Table::start(heap, pile)?;
    Ok(match table.read(bytes) {
        Ok(()) => Ok(settled_report(heap, &mut table)?),
        Err(fault) => Err(refusal_line(heap, fault)?),
    })
}

// The answer to the file on standard input. What lies past the longest file changes no answer.
fn answer_input<W: Weigher>(rt: &HostRuntime, pile: W) -> anyhow::Result<Answer>
where
    W: Drop,
{
    let mut bytes = Vec::new(rt.alloc());
    let limit = LONGEST_FILE as u64 + 1;
    rt.stdin().take(limit).read_to_end(&mut bytes)?;
    Ok(answer_file(rt.alloc(), pile, bytes.as_slice())?)
}

/// Reads a file from standard input and prints the answer; a refused file is a failure, of which nothing more is said.
pub fn run<W: Weigher>(rt: &HostRuntime, pile: W) -> anyhow::Result<ExitCode>
where
    W: Drop,
{
    match answer_input(rt, pile)? {
        Ok(report) => {
            rt.stdout().write_all(report.as_slice())?;
            Ok(ExitCode::SUCCESS)
        }
        Err(line) => {
            rt.stdout().write_all(line.as_bytes())?;
            Ok(ExitCode::FAILURE)
        }
    }
}
