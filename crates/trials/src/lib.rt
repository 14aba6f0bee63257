// The worked cases of document 01 ("To the testers", "Trial words") and of V8's tables, as rows of
// one shared table: specs/Table.antt. proofs/Trials.antt shows that the definitions give each row's
// outcome, by computation.
#![tactic(auto)]
