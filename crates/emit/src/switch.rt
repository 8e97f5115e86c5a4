// Switches, cases and ranges, from the words of their rows.
ghost use Rattle.std.specs.Prelude.{◌+◌, ◌*◌, ◌≤◌, length, drop};
ghost use Rattle.rows.specs.Back.{records_of, switch_of, case_of, range_of};
ghost use Rattle.written.specs.Put as definition;
ghost use Rattle.emit.specs.Shares.{SharesFit, switch_from, switches_of};
ghost use Rattle.emit.specs.Puts.{Puts};

use crate::base::number;
use crate::record::{Record, list};
use crate::words::{flag, index, signed};
use rows::row;

#[derive(Clone, Copy)]
pub struct Case;

impl Record<2> for Case {
    ghost bytes = { λ c row. definition.put_case (case_of row) };

    fn put(&self, out: &mut [u8], at: usize, row: [u64; 2]) -> usize
        ensures { Puts (definition.put_case (case_of row)) out.old at out.new result }
    {
        let behind = index(out, at, row[0]);
        index(out, behind, row[1])
    }
}

#[derive(Clone, Copy)]
pub struct Range;

impl Record<4> for Range {
    ghost bytes = { λ r row. definition.put_range (range_of row) };

    fn put(&self, out: &mut [u8], at: usize, row: [u64; 4]) -> usize
        ensures { Puts (definition.put_range (range_of row)) out.old at out.new result }
    {
        let from = signed(out, at, row[0]);
        let to = signed(out, from, row[1]);
        let told = flag(out, to, row[2]);
        index(out, told, row[3])
    }
}

// Cases, ranges, a default.
fn switch(
    out: &mut [u8],
    at: usize,
    row: [u64; 3],
    cases: &[u64],
    from: usize,
    ranges: &[u64],
    behind: usize,
) -> usize
    requires row_in_bounds { (from + (switch_of row).cases) * 2 ≤ length cases.now }
    requires row_in_bounds_2 { (behind + (switch_of row).ranges) * 4 ≤ length ranges.now }
    ensures { Puts (definition.put_switch (switch_from (switch_of row) cases.now from ranges.now behind)) out.old at out.new result }
{
    let listed = list(out, at, &Case, cases, from, row[0] as usize);
    let ranged = list(out, listed, &Range, ranges, behind, row[1] as usize);
    index(out, ranged, row[2])
}

pub fn switches(
    out: &mut [u8],
    at: usize,
    t: &[u64],
    used: usize,
    cases: &[u64],
    ranges: &[u64],
) -> usize
    requires shares_fit { SharesFit 0 3 used t.now 2 cases.now }
    requires shares_fit_2 { SharesFit 1 3 used t.now 4 ranges.now }
    ensures { Puts (definition.put_list definition.put_switch (switches_of t.now used cases.now ranges.now)) out.old at out.new result }
{
    let mut place = number(out, at, used as u64);
    let mut from: usize = 0;
    let mut behind: usize = 0;
    for j in 0..used {
        let row = row::of(t, j * 3);
        place = switch(out, place, row, cases, from, ranges, behind);
        from += row[0] as usize;
        behind += row[1] as usize;
    }
    place
}
