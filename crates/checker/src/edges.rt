// The edges of a word: each is narrowed, applies its slot, and then its row arrives (specs/Passes.antt).
// Policy, rows and result entry stay parameters: of a struct that borrows them each clause would have
// to say `lent.entry.rows.now`.
ghost use Rattle.std.specs.Prelude.{◌≡◌, ◌<◌, ◌≤◌, length};
ghost use Rattle.v8.specs.Numbers.{most_words};
ghost use Rattle.v8.specs.declared.Reading.TheVariants.{Read};
ghost use Rattle.rows.specs.Geometry.{entry_bytes};
ghost use Rattle.checker.specs.Passes.{change_by, cross, narrowed_edge, edge_pass, edges};
ghost use Rattle.checker.specs.Lent.{EndIn, EdgeIn, EdgesIn};

use crate::arrival::arrive;
use flow_edges::Edge;
use flow_edges::edges::edge_of;
use passes::Answer;
use passes::answers::{accept, refuse};
use policy::Policy;
use rows::notes::NOTE_COMPARISON;
use rows::{Row, entry_at, row_with};
use rules::{Change, change_of, narrow_entry, narrows};
use v8::numbers::ACCEPTED;
use v8::{Instruction, Reading, WordIndex};

// What a word, read as x, does to a row.
pub fn change_by(policy: &Policy, row: Row, x: Reading) -> Change
    ensures { result ≡ change_by policy.now row x }
{
    match x {
        Reading::Read(instruction) => change_of(policy, row, instruction),
        Reading::Unread(number) => Change::Breaks(number, 0),
    }
}

// Along an edge of a word, over its slot, read as x, where that runs.
#[tactic(auto, unfolding(crate::specs::Passes::cross))]
fn cross(
    policy: &Policy,
    rows: &[u8],
    res: &[u8],
    at: WordIndex,
    x: Reading,
    e: Edge,
    row: Row,
) -> Answer
    requires { (at.0 < most_words) × (entry_bytes ≤ length res.now) × EndIn e.to (length rows.now) }
    ensures { result ≡ cross policy.now rows.now res.now at.0 x e row }
{
    if !e.slot {
        return arrive(rows, res, at, e.to, row);
    }
    match change_by(policy, row, x) {
        Change::Writes(register, entry, note) => {
            arrive(rows, res, at, e.to, row_with(row, register, entry, note))
        }
        Change::Keeps => arrive(rows, res, at, e.to, row),
        Change::Breaks(number, register) => refuse(number, WordIndex(at.0 + 1), register),
    }
}

// An edge, narrowed by its class; not examined where no members are left.
#[tactic(auto, unfolding(crate::specs::Passes::narrowed_edge, rules::specs::Narrow::narrow_row))]
fn narrowed_edge(
    policy: &Policy,
    rows: &[u8],
    res: &[u8],
    at: WordIndex,
    x: Reading,
    e: Edge,
    row: Row,
) -> Answer
    requires { (at.0 < most_words) × (entry_bytes ≤ length res.now) × EndIn e.to (length rows.now) }
    ensures { result ≡ narrowed_edge policy.now rows.now res.now at.0 x e row }
{
    let note = row.note;
    if !(narrows(e.narrowing) && note.kind == NOTE_COMPARISON) {
        return cross(policy, rows, res, at, x, e, row);
    }
    match narrow_entry(e.narrowing, entry_at(row, note.register), note.number) {
        Some(entry) => {
            let narrowed = row_with(row, note.register, entry, note);
            cross(policy, rows, res, at, x, e, narrowed)
        }
        None => accept(),
    }
}

// An edge, if there is one. One that has no slot and narrows nothing only arrives.
#[tactic(auto, unfolding(crate::specs::Passes::narrowed_edge, crate::specs::Passes::cross, rules::specs::Narrow::narrow_row))]
fn edge_pass(
    policy: &Policy,
    rows: &[u8],
    res: &[u8],
    at: WordIndex,
    x: Reading,
    e: Edge,
    row: Row,
) -> Answer
    requires { (at.0 < most_words) × (entry_bytes ≤ length res.now) × EdgeIn e (length rows.now) }
    ensures { result ≡ edge_pass policy.now rows.now res.now at.0 x e row }
{
    if !e.exists {
        return accept();
    }
    if !e.slot && !narrows(e.narrowing) {
        return arrive(rows, res, at, e.to, row);
    }
    narrowed_edge(policy, rows, res, at, x, e, row)
}

// The edges of an instruction, from the row that it makes: the taken one, then the other. The slot is
// read as x.
pub fn edges_of(
    policy: &Policy,
    rows: &[u8],
    res: &[u8],
    at: WordIndex,
    instruction: Instruction,
    x: Reading,
    row: Row,
) -> Answer
    requires { (at.0 < most_words) × (entry_bytes ≤ length res.now) × EdgesIn at.0 instruction (length rows.now) }
    ensures { result ≡ edges policy.now rows.now res.now at.0 (Read instruction) x row }
{
    let taken = edge_of(at, instruction, true);
    let first = edge_pass(policy, rows, res, at, x, taken, row);
    if first.number != ACCEPTED {
        return first;
    }
    let other = edge_of(at, instruction, false);
    edge_pass(policy, rows, res, at, x, other, row)
}
