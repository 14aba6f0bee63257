// A row along an edge: narrowed by its class, and after its slot where that runs.
use crate::hoping::row_after;
use flow_edges::{Destination, Edge};
use policy::Policy;
use rows::notes::NOTE_COMPARISON;
use rows::{Row, entry_at, row_with};
use rules::{narrow_entry, narrows};
use v8::Reading;

// Whether an edge is there and ends at word w.
pub fn leads_to(e: Edge, w: usize) -> bool {
    match e.to {
        Destination::To(d) => e.exists && d.0 as usize == w,
        Destination::Caller => false,
    }
}

// A row narrowed by an edge's class; none where no values are left on it.
pub fn narrowed(row: Row, e: Edge) -> Option<Row> {
    let note = row.note;
    if !narrows(e.narrowing) || note.kind != NOTE_COMPARISON {
        return Some(row);
    }
    let held = entry_at(row, note.register);
    let left = narrow_entry(e.narrowing, held, note.number)?;
    Some(row_with(row, note.register, left, note))
}

// A row carried along an edge over the slot, read as x; none where it does not arrive.
pub fn carry(policy: &Policy, row: Row, e: Edge, x: Reading) -> Option<Row> {
    let left = narrowed(row, e)?;
    if e.slot {
        return Some(row_after(policy, left, x));
    }
    Some(left)
}
