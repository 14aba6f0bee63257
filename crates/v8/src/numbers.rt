// The numbers of document 01, named once for all crates.

// Answers and refusals, in the order of the card (docs/CARD.md).

// Nothing is broken.
pub const ACCEPTED: u8 = 0;

// A row is badly formed.
pub const BAD_ROW: u8 = 1;

// A word is not read.
pub const NOT_READ: u8 = 2;

// The flow is broken.
pub const BAD_FLOW: u8 = 3;

// An operand is unset, or the codes that a branch reads are.
pub const UNSET_OPERAND: u8 = 4;

// An operand of an access is the start of a region, or null.
pub const MAYBE_NULL: u8 = 5;

// There is no rule for the operands' kinds.
pub const NO_RULE: u8 = 6;

// The bytes reached do not lie inside one field.
pub const OUTSIDE_FIELDS: u8 = 7;

// The instruction does not serve the field's element.
pub const WRONG_ELEMENT: u8 = 8;

// An offset lies off the grid of the field's elements, or the step is no multiple of their width.
pub const OFF_GRID: u8 = 9;

// The field's permission does not allow the access.
pub const NOT_ALLOWED: u8 = 10;

// The stored entry does not fit the element.
pub const WRONG_VALUE: u8 = 11;

// An edge's row does not fit the next row.
pub const EDGE_MISFIT: u8 = 12;

// The last byte reached lies above 4,095.
pub const TOO_HIGH: u8 = 13;

// r8 does not fit the result entry.
pub const RESULT_MISFIT: u8 = 14;

// The entry row does not fit row 0.
pub const ENTRY_MISFIT: u8 = 15;

// An offset of the result lies below 0 or above the region's size.
pub const OUTSIDE_REGION: u8 = 16;

// An instruction has a part that is out of range or not of the subset.
pub const NOT_WRITTEN: u8 = 17;

// There is no place for another region or field.
pub const FULL: u8 = 18;

// A region has a size that is not allowed.
pub const BAD_SIZE: u8 = 19;

// The policy breaks a rule.
pub const BAD_POLICY: u8 = 20;

// Words, rows, entry row or result entry are too few, too many or badly formed.
pub const BAD_SHAPE: u8 = 21;

// Bases, return address or memory length are wrong.
pub const BAD_PLACEMENT: u8 = 22;

// The bytes are no bundle.
pub const BAD_BUNDLE: u8 = 23;

// A word is privileged, and for that not read.
pub const PRIVILEGED: u8 = 24;

// A word would write a register that is the caller's.
pub const CALLERS_REGISTER: u8 = 25;

// The machine's faults.

// The word is outside the code, not read, or a transfer in a slot.
pub const NO_WORD: u8 = 101;

// A register or the codes are read and not set.
pub const UNSET_READ: u8 = 102;

// The bytes are not inside one field of matching element and permission.
pub const NO_FIELD: u8 = 103;

// The address is no multiple of the access's width, or r15 none of 4 at a return.
pub const UNALIGNED: u8 = 104;

// A return, and r15 is not the return address.
pub const WRONG_RETURN: u8 = 105;

// What more than one crate counts by.

// The most words that a routine has.
pub const MOST_WORDS: usize = 128;

// The conditions that read no codes.
pub const NEVER: u8 = 0;

pub const ALWAYS: u8 = 8;
