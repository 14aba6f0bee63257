// A table of marks, 32 a word (specs/Table.antt).
ghost use Rattle.std.specs.Prelude.{◌≡◌, ltb, ◌<◌, length};
ghost use Rattle.v8.specs.Numbers.{most_words};
ghost use Rattle.rows.specs.Geometry.{RowIn};
ghost use Rattle.lister_rules.specs.Table.{table_marks, marks_at, reached, raised_at, height};
ghost use Rattle.lister_rules.specs.Rules.{entry_marks};

use crate::TABLE_MARKS;
use marks::REGISTERS;
use marks::kinds::{NOT_REACHED, UNSET, mark_of_kind, meet};
use rows::geometry::ENTRY_BYTES;
use rows::read_entry;

// The marks of word w.
pub fn marks_at(table: &[u8; TABLE_MARKS], w: usize) -> [u8; REGISTERS]
    requires { w < most_words }
    ensures { result ≡ marks_at table.now w }
{
    let start = REGISTERS * w;
    let mut marks = [UNSET; REGISTERS];
    marks.copy_from_slice(&table[start..start + REGISTERS]);
    marks
}

// The marks of the entry row's kinds.
pub fn entry_marks(entry: &[u8]) -> [u8; REGISTERS]
    requires { RowIn 0 (length entry.now) }
    ensures { result ≡ entry_marks entry.now }
{
    let mut marks = [UNSET; REGISTERS];
    for r in 0..REGISTERS {
        let e = read_entry(entry, ENTRY_BYTES * r);
        marks[r] = mark_of_kind(e.kind);
    }
    marks
}

// Whether a word with these marks is reached.
pub fn is_reached(marks: &[u8; REGISTERS]) -> bool
    ensures { result ≡ reached marks.now }
{
    !marks.contains(&NOT_REACHED)
}

// Raises a table by marks that arrive at word w; whether a mark has changed.
pub fn raise_at(table: &mut [u8; TABLE_MARKS], w: usize, marks: &[u8; REGISTERS]) -> bool
    requires { (w < most_words) × (length table.old ≡ table_marks) }
    ensures table { table.new ≡ raised_at table.old w marks.now }
    ensures changed { result ≡ ltb (height table.old) (height table.new) }
{
    let mut changed = false;
    for (r, &mark) in marks.iter().enumerate() {
        let old = table[REGISTERS * w + r];
        let new = meet(old, mark);
        table[REGISTERS * w + r] = new;
        changed |= new != old;
    }
    changed
}
