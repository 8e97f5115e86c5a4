#![tactic(auto)]
// The face: what C and Rust call, and nothing else. `grain_c` exports it, and include/grain.h says the same in C.
//
// A function answers 0, or the refusal's number in document 01's table, unless it says otherwise; what else it tells it leaves
// in the places lent to it. None asks anything of what it is given.

mod answer;
mod heading;
pub mod numbers;
pub mod positions;
pub mod read;
pub mod write;
