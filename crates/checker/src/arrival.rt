// Rows of words, and what is asked of a row that arrives at the end of an edge (specs/Passes.antt).
ghost use Rattle.std.specs.Prelude.{◌≡◌, ◌≤◌, length};
ghost use Rattle.rows.specs.Geometry.{entry_bytes, RowIn};
ghost use Rattle.passes.specs.Passes.{row_at};
ghost use Rattle.checker.specs.Passes.{arrive};
ghost use Rattle.checker.specs.Lent.{EndIn};

use flow_edges::Destination;
use passes::Answer;
use passes::answers::{need, unless_fault};
use rows::geometry::ROW_BYTES;
use rows::{Row, entry_at, fits, misfit, read_entry, read_row};
use v8::WordIndex;
use v8::numbers::{EDGE_MISFIT, RESULT_MISFIT};

// r8, which has the result.
const RESULT: u8 = 8;

// The row of a word.
pub fn row_at(rows: &[u8], at: WordIndex) -> Row
    requires { RowIn at.0 (length rows.now) }
    ensures { result ≡ row_at rows.now at.0 }
{
    read_row(rows, ROW_BYTES * at.0 as usize)
}

// A row arrives from a word at the end of an edge: 12 where it does not fit the row of the word there,
// 14 where at the caller r8 does not fit the result entry.
pub fn arrive(rows: &[u8], res: &[u8], at: WordIndex, to: Destination, row: Row) -> Answer
    requires { (entry_bytes ≤ length res.now) × EndIn to (length rows.now) }
    ensures { result ≡ arrive rows.now res.now at.0 to row }
{
    match to {
        Destination::To(next) => {
            let flaw = misfit(row, rows, ROW_BYTES * next.0 as usize);
            unless_fault(EDGE_MISFIT, at, flaw)
        }
        Destination::Caller => {
            let holds = fits(entry_at(row, RESULT), read_entry(res, 0));
            need(holds, RESULT_MISFIT, at, RESULT)
        }
    }
}
