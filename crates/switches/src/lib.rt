#![tactic(auto)]
// Switches, their cases and their ranges (section 7 of document 01; get_switches of format/read.rs).
ghost use Rattle.std.specs.Prelude.{◌/◌, length};
ghost use Rattle.tables.specs.Table.{nested};
ghost use Rattle.format.specs.Artifact.{count_cases};
ghost use Rattle.format.specs.File as definition;
ghost use Rattle.switches.specs.Answers.{LeftSwitch, LeftCases, nothing, used_cases};

use cases::case_list;
use format::records::Switch;
use grammar::{Cursor, Read};
use ranges::range_list;
use refusal::Refusal;

pub mod cases;
pub mod ranges;

// Switches that were read: the places used of the three tables.
#[derive(Clone, Copy)]
pub struct Switched {
    pub used: usize,
    pub cases: usize,
    pub ranges: usize,
}

// The section: a count, then the switches.
#[tactic(auto, using(grammar::proofs::Read::reads, crate::proofs::Switching::all_refused), unfolding(format::specs::File::switches))]
pub fn switches(
    s: &[u8],
    c: Cursor,
    tops: usize,
    t: &mut [u64],
    cases: &mut [u64],
    ranges: &mut [u64],
) -> Read<Switched>
    ensures { LeftCases (definition.switches (length t.old / 3) (length cases.old / 2) (length ranges.old / 4) tops s.now c) t.old t.new cases.old cases.new ranges.old ranges.new result }
{
    let (n, c) = varint::uvarint(s, c)?;
    switch_rows(s, c, n, tops, t, cases, ranges)
}

// Not the loop of tables, which fills one table: what a switch reads fills two more.
fn switch_rows(
    s: &[u8],
    c: Cursor,
    n: u64,
    tops: usize,
    t: &mut [u64],
    cases: &mut [u64],
    ranges: &mut [u64],
) -> Read<Switched>
    ensures { LeftCases (nested count_cases 7 (length t.old / 3) (definition.switch (length cases.old / 2) (length ranges.old / 4) tops) n nothing s.now c) t.old t.new cases.old cases.new ranges.old ranges.new result }
{
    let places = t.len() / 3;
    let mut at = c;
    let mut used: usize = 0;
    let mut cased: usize = 0;
    let mut ranged: usize = 0;
    for _ in 0..n {
        if places <= used {
            return Err(Refusal::Full { table: 7 });
        }
        let ((switch, behind), next) = switch(s, at, tops, cases, cased, ranges, ranged)?;
        let row: [u64; 3] = switch.into();
        tables::store(t, used * 3, &row);
        (cased, ranged) = behind;
        at = next;
        used += 1;
    }
    let all = Switched {
        used,
        cases: cased,
        ranges: ranged,
    };
    Ok((all, at))
}

// A switch: cases, ranges, a default; and the places used of both tables behind it. The tables and the places are lent one by one:
// a struct of four would be taken apart again in the two calls that are all of it.
fn switch(
    s: &[u8],
    c: Cursor,
    tops: usize,
    cases: &mut [u64],
    cased: usize,
    ranges: &mut [u64],
    ranged: usize,
) -> Read<(Switch, (usize, usize))>
    ensures { LeftSwitch (definition.switch (length cases.old / 2) (length ranges.old / 4) tops (used_cases cased ranged) s.now c) cased ranged cases.old cases.new ranges.old ranges.new result }
{
    let (more, c) = case_list(s, c, tops, cases, cased)?;
    let (further, c) = range_list(s, c, ranges, ranged)?;
    let (default, c) = varint::index(s, c)?;
    let whole = Switch {
        cases: (more - cased) as u64,
        ranges: (further - ranged) as u64,
        default,
    };
    Ok(((whole, (more, further)), c))
}
