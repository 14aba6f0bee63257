// How a row lies in bytes, and by which numbers its places are named in an answer
// (specs/Geometry.antt). A named place is not the index of an entry: the note is named among the
// entries.
ghost use Rattle.std.specs.Prelude.{◌≡◌, ◌<◌};
ghost use Rattle.memory.specs.Frame.{scratch_count};
ghost use Rattle.rows.specs.Geometry.{entry_count, scratch_entry, entry_name, note_name, places, entry_named};

// How many entries a row has: one for each of 32 registers, and for each of six scratch words.
pub const ENTRIES: usize = 38;
// How many of them are registers'; those of the scratch words stand after them.
pub const REGISTERS: usize = 32;
// How many bytes an entry has.
pub const ENTRY_BYTES: usize = 12;
// How many bytes a row has.
pub const ROW_BYTES: usize = 464;
// Where the note stands in a row, after the entries.
pub const NOTE_OFFSET: usize = 456;
// The place that is named for the note.
pub const NOTE_NAME: u8 = 32;
// How many places are named: the entries and the note.
pub const PLACES: u8 = 39;

// The index of the entry that a place names which is not the note's.
pub fn entry_named(place: u8) -> usize
    requires { (place < places) × (place ≡ note_name → ⊥) }
    ensures { (result ≡ entry_named place) × (result < entry_count) }
{
    if place < NOTE_NAME {
        return place as usize;
    }
    (place - 1) as usize
}

// The index of scratch word k's entry.
pub fn scratch_entry(k: u8) -> u8
    requires { k < scratch_count }
    ensures { result ≡ scratch_entry k }
{
    REGISTERS as u8 + k
}

// The number that names scratch word k in an answer.
pub fn scratch_name(k: u8) -> u8
    requires { k < scratch_count }
    ensures { result ≡ entry_name (scratch_entry k) }
{
    NOTE_NAME + 1 + k
}
