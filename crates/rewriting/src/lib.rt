#![tactic(auto)]
// What was promised of writing, as theorems about what `writing::write` and `reading::read` answer and leave. There is no code here:
// proofs/Demands.antt has them.
