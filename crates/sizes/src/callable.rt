// Custom sites and functions without their items; and inputs and parameters, by themselves.
ghost use Rattle.std.specs.Prelude.{◌≡◌, ◌≤◌};
ghost use Rattle.rows.specs.Back as back;
ghost use Rattle.written.specs.Put as definition;
ghost use Rattle.emit.specs.Shares as shares;
ghost use Rattle.sizes.specs.Counts.{Counts};
ghost use Rattle.sizes.specs.Own.{own_site, own_function};

use crate::base::{number, plus};
use crate::record::{Counted, rows};
use crate::words::{index, small};
use emit::callable::{Function, Input, Parameter, Site};
use emit::numbers::{told, typed};
use format::records::Chunk;

pub fn chunk(at: usize, c: Chunk) -> usize
    requires { at ≤ 1048577 }
    ensures { Counts (definition.put_chunk c) at result }
{
    plus(
        at,
        number(c.entry as u64) + number(c.end as u64) + number(c.slots as u64),
    )
}

// Chunk and literal.
impl Counted<5> for Input {
    ghost bytes = { λ i row. definition.put_input (back.input_of row) };

    fn count(&self, at: usize, row: [u64; 5]) -> usize
        requires { at ≤ 1048577 }
        ensures { Counts (definition.put_input (back.input_of row)) at result }
    {
        let literal = number(told(row[3], row[4]));
        plus(at, index(row[0]) + index(row[1]) + small(row[2]) + literal)
    }
}

impl Counted<1> for Parameter {
    ghost bytes = { λ p row. definition.put_name (back.parameter_of row) };

    fn count(&self, at: usize, row: [u64; 1]) -> usize
        requires { at ≤ 1048577 }
        ensures { Counts (definition.put_name (back.parameter_of row)) at result }
    {
        plus(at, index(row[0]))
    }
}

// Key, state, how many inputs: without them.
impl Counted<3> for Site {
    ghost bytes = { λ s row. own_site (back.site_of row) };

    fn count(&self, at: usize, row: [u64; 3]) -> usize
        requires { at ≤ 1048577 }
        ensures { Counts (own_site (back.site_of row)) at result }
    {
        plus(at, index(row[0]) + index(row[1]) + number(row[2]))
    }
}

// The section. That the sites own all the inputs, and no more, was tested before.
pub fn sites(at: usize, t: &[u64], used: usize, inputs: &[u64], owned: usize) -> usize
    requires at_bound { at ≤ 1048577 }
    requires shares_fit { shares.SharesFit 2 3 used t.now 5 inputs.now }
    requires owned_value { owned ≡ shares.owned 2 3 used t.now }
    ensures { Counts (definition.put_list definition.put_site (shares.sites_of t.now used inputs.now)) at result }
{
    let behind = rows(plus(at, number(used as u64)), &Site, t, used);
    rows(behind, &Input, inputs, owned)
}

// Name, access in one byte, this_type, how many parameters, chunk: without the parameters.
impl Counted<7> for Function {
    ghost bytes = { λ f row. own_function (back.function_of row) };

    fn count(&self, at: usize, row: [u64; 7]) -> usize
        requires { at ≤ 1048577 }
        ensures { Counts (own_function (back.function_of row)) at result }
    {
        let told = index(row[0]) + 1 + number(typed(row[2])) + number(row[3]);
        plus(at, told + index(row[4]) + index(row[5]) + small(row[6]))
    }
}

// The section. That the functions own all the parameters, and no more, was tested before.
pub fn functions(at: usize, t: &[u64], used: usize, parameters: &[u64], owned: usize) -> usize
    requires at_bound { at ≤ 1048577 }
    requires shares_fit { shares.SharesFit 3 7 used t.now 1 parameters.now }
    requires owned_value { owned ≡ shares.owned 3 7 used t.now }
    ensures { Counts (definition.put_list definition.put_function (shares.functions_of t.now used parameters.now)) at result }
{
    let behind = rows(plus(at, number(used as u64)), &Function, t, used);
    rows(behind, &Parameter, parameters, owned)
}
