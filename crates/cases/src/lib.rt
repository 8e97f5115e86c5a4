#![tactic(auto)]
// The starred cases of document 01. There is no code here: specs/Table.antt is the table, proofs/Hold.antt the one statement that each holds.
