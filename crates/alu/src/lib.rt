// What SPARC V8 gives: the results of the arithmetic, logic and shift operations on 32-bit words,
// the condition codes that they set, and the sixteen conditions of a branch.
// (V8, appendices B and C; document 01, "Words we read".)
#![tactic(auto)]

// Results.
mod result;
// Condition codes.
pub mod codes;
// Conditions.
pub mod condition;

pub use codes::{Codes, codes_of};
pub use condition::{Narrowing, condition_of, holds, opposite};
pub use result::{alu, sethi, shift, sum};
