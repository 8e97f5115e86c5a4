#![tactic(auto)]
// A law about definitions: what a parser gives always has. There is no code here: proofs/Leaves.antt has the law.
