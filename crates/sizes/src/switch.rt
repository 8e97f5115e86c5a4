// Switches: how many cases and ranges they have, and a default; and cases and ranges, by themselves.
ghost use Rattle.std.specs.Prelude.{◌≡◌, ◌≤◌};
ghost use Rattle.rows.specs.Back.{case_of, range_of, switch_of};
ghost use Rattle.written.specs.Put as definition;
ghost use Rattle.emit.specs.Shares as shares;
ghost use Rattle.sizes.specs.Counts.{Counts};
ghost use Rattle.sizes.specs.Own.{own_switch};

use crate::base::{number, plus};
use crate::record::{Counted, rows};
use crate::words::{index, signed};
use emit::switch::{Case, Range};

impl Counted<2> for Case {
    ghost bytes = { λ c row. definition.put_case (case_of row) };

    fn count(&self, at: usize, row: [u64; 2]) -> usize
        requires { at ≤ 1048577 }
        ensures { Counts (definition.put_case (case_of row)) at result }
    {
        plus(at, index(row[0]) + index(row[1]))
    }
}

impl Counted<4> for Range {
    ghost bytes = { λ r row. definition.put_range (range_of row) };

    fn count(&self, at: usize, row: [u64; 4]) -> usize
        requires { at ≤ 1048577 }
        ensures { Counts (definition.put_range (range_of row)) at result }
    {
        plus(at, signed(row[0]) + signed(row[1]) + 1 + index(row[3]))
    }
}

// Without its cases and ranges.
#[derive(Clone, Copy)]
pub struct Switch;

impl Counted<3> for Switch {
    ghost bytes = { λ w row. own_switch (switch_of row) };

    fn count(&self, at: usize, row: [u64; 3]) -> usize
        requires { at ≤ 1048577 }
        ensures { Counts (own_switch (switch_of row)) at result }
    {
        plus(at, number(row[0]) + number(row[1]) + index(row[2]))
    }
}

// The section. That the switches own all the cases and ranges, and no more, was tested before.
pub fn switches(
    at: usize,
    t: &[u64],
    used: usize,
    cases: &[u64],
    cased: usize,
    ranges: &[u64],
    ranged: usize,
) -> usize
    requires at_bound { at ≤ 1048577 }
    requires shares_fit { shares.SharesFit 0 3 used t.now 2 cases.now }
    requires shares_fit_2 { shares.SharesFit 1 3 used t.now 4 ranges.now }
    requires cased_value { cased ≡ shares.owned 0 3 used t.now }
    requires ranged_value { ranged ≡ shares.owned 1 3 used t.now }
    ensures { Counts (definition.put_list definition.put_switch (shares.switches_of t.now used cases.now ranges.now)) at result }
{
    let behind = rows(plus(at, number(used as u64)), &Switch, t, used);
    let listed = rows(behind, &Case, cases, cased);
    rows(listed, &Range, ranges, ranged)
}
