#![tactic(auto)]
// That the tables which a read leaves, lent to the writer with the bytes that were read, mean what was read and keep the rules. There is
// no code here: proofs/Returned.antt has the theorems.
