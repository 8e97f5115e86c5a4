#![tactic(auto)]
// That tables which keep the rules mean something well-formed. There is no code here: proofs/Upheld.antt has the theorem.
