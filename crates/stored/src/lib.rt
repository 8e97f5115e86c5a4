#![tactic(auto)]
// That the rows which a read stores give its records and its constants back. There is no code here: proofs/Stored.antt has the theorem.
