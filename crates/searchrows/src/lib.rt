// The worked cases of document 02, request 3, as rows of one table: specs/Table.antt.
// proofs/Rows.antt shows that the definitions give each row's outcome, by computation.
#![tactic(auto)]
