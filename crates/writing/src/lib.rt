#![tactic(auto)]
// The writer of a whole artifact (format/write.rs): the lowest broken rule first, then the room, then the bytes.

pub mod count;
pub mod lay;
pub mod write;
