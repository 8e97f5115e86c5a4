#![tactic(auto)]
// The reader of a whole artifact (`read` of format/read.rs): its sections, each from where the one before it ended.

mod artifact;
mod cleared;
pub mod read;
