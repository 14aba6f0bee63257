// Rows found for a routine, so that a dealer need not write them: from its words, the policy, the entry
// row and the result entry, and from rows that are given for some words. What is found is a guess, and
// the check judges it: the answer is the check's to the rows that are handed back.
#![tactic(auto)]

// What a refusal may come from.
mod blaming;
// The search for rows.
mod finding;

pub use finding::find_rows;
