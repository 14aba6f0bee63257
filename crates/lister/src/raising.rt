// A table raised until it is closed. The words whose marks are to be passed on are flagged; the lowest
// of them is next.
ghost use Rattle.std.specs.Prelude.{◌≡◌, ◌≤◌, length};
ghost use Rattle.flow_code.specs.Lent.{code_of, Formed, Examines};
ghost use Rattle.rows.specs.Geometry.{RowIn};
ghost use Rattle.lister.specs.Listing.{listing_of, whole_table};

use flow_code::reading_at;
use lister_rules::TABLE_MARKS;
use lister_rules::sending::Work;
use lister_rules::table::{entry_marks, raise_at};
use marks::kinds::NOT_REACHED;
use v8::numbers::MOST_WORDS;
use v8::{Reading, WordIndex};

// The table raised by the entry row's kinds at word 0 and by all that the words send, from no marks
// until it is closed.
pub fn raise_until_closed(
    readings: &[Reading; MOST_WORDS],
    count: usize,
    examined: &[bool; MOST_WORDS],
    entry: &[u8],
) -> [u8; TABLE_MARKS]
    requires { (1 ≤ count)
        × Formed readings.now count
        × Examines examined.now (code_of readings.now count)
        × RowIn 0 (length entry.now) }
    ensures { result ≡ whole_table (listing_of (code_of readings.now count) entry.now) }
{
    let mut table = [NOT_REACHED; TABLE_MARKS];
    raise_at(&mut table, 0, &entry_marks(entry));
    let mut work = Work {
        table,
        pending: [true; MOST_WORDS],
        count,
        next: 0,
    };
    // The next word may lie further back, wherever a word below is raised.
    while work.next < count {
        let w = work.next;
        work.next += 1;
        if work.pending[w] && examined[w] {
            work.pending[w] = false;
            let slot = reading_at(readings, w + 1);
            work.pass_on(WordIndex(w as u32), readings[w], slot);
        }
    }
    work.table
}
