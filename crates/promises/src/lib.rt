#![tactic(auto)]
// What was promised of the reader, as theorems about what `reading::read` answers and leaves. There is no code here: proofs/Demands.antt
// has the statements.
