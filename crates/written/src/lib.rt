#![tactic(auto)]
// The bytes of a file's meaning, and that reading gives it back. There is no code here: specs/Put.antt says what is written, proofs/Whole.antt what is read of it.
