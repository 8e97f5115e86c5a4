#![tactic(auto)]
// The functions of `grain` under their names for C and Rust; include/grain.h says the same in C. Each calls the one of its name, and
// promises what that promises. This crate is the archive: a crate that others stand on cannot be one.

mod numbers;
mod positions;
mod read;
mod write;
