#![tactic(auto)]
// What is lent to be written, the rules of well-formed tables, what tables mean, and what writing answers and leaves. There is no function
// here: specs/Rules.antt and specs/Written.antt are the definition of writing.

use format::answer::Artifact;

// What is lent to be written, to be looked at: what stands outside the tables, whether its numbers fit their kinds, the thirteen tables
// in their order, and the text that the spans cut.
#[derive(Clone, Copy)]
pub struct Lent<'a> {
    pub outside: Artifact,
    pub numbers_fit: bool,
    pub names: &'a [u64],
    pub constants: &'a [u64],
    pub tokens: &'a [u64],
    pub assigns: &'a [u64],
    pub chains: &'a [u64],
    pub steps: &'a [u64],
    pub switches: &'a [u64],
    pub cases: &'a [u64],
    pub ranges: &'a [u64],
    pub customs: &'a [u64],
    pub inputs: &'a [u64],
    pub functions: &'a [u64],
    pub parameters: &'a [u64],
    pub text: &'a [u8],
}
