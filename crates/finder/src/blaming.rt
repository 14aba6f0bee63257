// Where an access or an address is refused, the cause may be an entry that grows in a loop with nothing
// to bound it. Such entries are kept from growing, one after another: if the check then names the way
// back on which one grows, by 12, the dealer is told of that.
ghost use Rattle.std.specs.Prelude.{◌≡◌, ◌<◌, ◌*◌, length, IfSome};
ghost use Rattle.rows.specs.Geometry.{row_bytes};

use attempt::Asked;
use drafts::TABLE_ENTRIES;
use merging::{Growth, Way};
use passes::Answer;
use rows::geometry::{ENTRIES, NOTE_NAME};
use v8::numbers::{EDGE_MISFIT, OFF_GRID, OUTSIDE_FIELDS, OUTSIDE_REGION};

// How many entries are tried at most, and in how many turns: those first that were the first to grow with
// nothing to bound them.
const TRIALS: u32 = 16;

const TURNS: usize = 36;

// The numbers of growths that are tried, one after another, each beside those that are kept.
const STRETCHES: [u8; 8] = [128, 64, 32, 16, 8, 4, 2, 1];

// How often each entry may grow, where that is limited.
type Limits = [Option<u8>; TABLE_ENTRIES];

// Whether a refusal may come from an entry that grows too far.
pub fn from_growth(number: u8) -> bool {
    matches!(number, OUTSIDE_FIELDS | OFF_GRID | OUTSIDE_REGION)
}

// The number that names entry i of a row.
fn name_of(i: usize) -> usize {
    let index = i % ENTRIES;
    if index < NOTE_NAME as usize {
        index
    } else {
        index + 1
    }
}

// Whether an answer names a way back, and entry i.
fn is_way(a: Answer, way: Way, i: usize) -> bool {
    a.register as usize == name_of(i) && a.word.0 == way.word as u32
}

// Whether it is an entry's turn, counted from 1.
fn is_turn(growth: &Growth, turn: usize) -> bool {
    growth.way.is_some_and(|way| way.first as usize == turn)
}

// The next turn, from one on, that is an entry's which is not limited, if there is one. Turn after turn, all
// entries are gone through.
fn next_turn(growths: &[Growth; TABLE_ENTRIES], limits: &Limits, from: usize) -> Option<usize>
    ensures { IfSome result (λ k. k < TURNS * TABLE_ENTRIES) }
{
    for k in from..TURNS * TABLE_ENTRIES {
        let i = k % TABLE_ENTRIES;
        if is_turn(&growths[i], k / TABLE_ENTRIES + 1) && limits[i].is_none() {
            return Some(k);
        }
    }
    None
}

// Whether an answer names the way back on which an entry grows that is kept from it.
fn is_named(growths: &[Growth; TABLE_ENTRIES], limits: &Limits, a: Answer) -> bool {
    if a.number != EDGE_MISFIT {
        return false;
    }
    for i in 0..TABLE_ENTRIES {
        if limits[i].is_some() && growths[i].way.is_some_and(|way| is_way(a, way, i)) {
            return true;
        }
    }
    false
}

// Whether two answers are the same. (The crate passes derives no == for an Answer.)
fn same(a: Answer, b: Answer) -> bool {
    a.number == b.number && a.word.0 == b.word.0 && a.register == b.register
}

// Gives all entries that are limited the same limit.
fn limit_all(limits: &mut Limits, n: u8) {
    for limit in limits.iter_mut() {
        if limit.is_some() {
            *limit = Some(n);
        }
    }
}

// Lets the entries that are limited grow as often as the answer stays the same, so that the rows show what
// they are then.
fn stretch(asked: &Asked, rows: &mut [u8], limits: &mut Limits, named: Answer)
    requires { row_bytes * length asked.now.words.now ≡ length rows.old }
{
    let mut kept: u8 = 0;
    for more in STRETCHES {
        limit_all(limits, kept | more);
        if same(asked.try_rows(limits, rows).answer, named) {
            kept |= more;
        }
    }
    limit_all(limits, kept);
}

// Keeps entries from growing until the answer names the way back on which one grows. If none does, no
// entry is limited at the end. `growths` and `first` are of the attempt without limits.
pub fn blame(
    asked: &Asked,
    rows: &mut [u8],
    growths: &[Growth; TABLE_ENTRIES],
    first: Answer,
) -> Limits
    requires { row_bytes * length asked.now.words.now ≡ length rows.old }
{
    let mut limits = [None; TABLE_ENTRIES];
    let mut answer = first;
    let mut from = 0;
    for _ in 0..TRIALS {
        let Some(k) = next_turn(growths, &limits, from) else {
            break;
        };
        let i = k % TABLE_ENTRIES;
        limits[i] = Some(0);
        let found = asked.try_rows(&limits, rows).answer;
        if is_named(growths, &limits, found) {
            stretch(asked, rows, &mut limits, found);
            return limits;
        }
        if found.number != EDGE_MISFIT && answer.word.0 < found.word.0 {
            answer = found;
            from = 0;
        } else {
            limits[i] = None;
            from = k + 1;
        }
    }
    [None; TABLE_ENTRIES]
}
