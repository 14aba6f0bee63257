// Records on standard input, and what programs read of one: how many there are of something, the
// edition, and a policy.
#![tactic(auto)]

// The reading of records.
pub mod reading;
// The edition that a record is for.
pub mod edition;
// The policy that stands in a record.
pub mod given;
// What is judged, one thing after another.
pub mod judging;

// The most numbers of a record.
pub const MOST_NUMBERS: usize = 747;
