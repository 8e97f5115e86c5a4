// What the reader answers of an accepted file: what stands outside the tables, with the places used of each table.

use crate::records::Chunk;
use grammar::Span;

#[derive(Clone, Copy)]
pub struct Artifact {
    pub header: Header,
    pub source: Span,
    pub blob: Span,
    pub tops: usize,
    pub main: Chunk,
    pub code: Span,
    pub positions: Span,
    pub used: Used,
}

#[derive(Clone, Copy)]
pub struct Header {
    pub caps: u32,
    pub low: u64,
    pub high: u64,
}

// The places used of the thirteen tables, in their order.
#[derive(Clone, Copy, Default)]
pub struct Used {
    pub names: usize,
    pub constants: usize,
    pub tokens: usize,
    pub assigns: usize,
    pub chains: usize,
    pub steps: usize,
    pub switches: usize,
    pub cases: usize,
    pub ranges: usize,
    pub customs: usize,
    pub inputs: usize,
    pub functions: usize,
    pub parameters: usize,
}
