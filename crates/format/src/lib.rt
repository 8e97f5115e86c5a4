#![tactic(auto)]
// What an artifact is made of (format/mod.rs): the magic, the version, each tag named once, the kinds of index, and the records.
// specs/File.antt is the definition of the file.

pub mod answer;
pub mod records;
pub mod rows;
pub mod tags;
