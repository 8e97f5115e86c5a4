// Custom syntax and functions, from the words of their rows.
ghost use Rattle.std.specs.Prelude.{◌≡◌, ◌+◌, ◌*◌, ◌≤◌, length, map};
ghost use Rattle.rows.specs.Back.{word, site_of, input_of, function_of, parameter_of};
ghost use Rattle.written.specs.Put as definition;
ghost use Rattle.emit.specs.Shares.{SharesFit, site_from, sites_of, function_from, functions_of};
ghost use Rattle.emit.specs.Puts.{Puts};

use crate::record::{Owner, Record, list, owners};
use crate::words::{chunk, flag, index, literal, this};

#[derive(Clone, Copy)]
pub struct Input;

impl Record<5> for Input {
    ghost bytes = { λ i row. definition.put_input (input_of row) };

    fn put(&self, out: &mut [u8], at: usize, row: [u64; 5]) -> usize
        ensures { Puts (definition.put_input (input_of row)) out.old at out.new result }
    {
        let behind = chunk(out, at, row[0], row[1], row[2]);
        literal(out, behind, row[3], row[4])
    }
}

#[derive(Clone, Copy)]
pub struct Parameter;

impl Record<1> for Parameter {
    ghost bytes = { λ p row. definition.put_name (parameter_of row) };

    fn put(&self, out: &mut [u8], at: usize, row: [u64; 1]) -> usize
        ensures { Puts (definition.put_name (parameter_of row)) out.old at out.new result }
    {
        index(out, at, row[0])
    }
}

// Key, state, inputs.
#[derive(Clone, Copy)]
pub struct Site;

impl Owner<3, 5> for Site {
    ghost counted = { 2 };

    ghost bytes = { λ s row inputs. definition.put_site (record { whole = site_of row; items = map input_of inputs }) };

    fn owned(row: [u64; 3]) -> usize
        ensures { result ≡ word row 2 }
    {
        row[2] as usize
    }

    fn put(&self, out: &mut [u8], at: usize, row: [u64; 3], inputs: &[u64], from: usize) -> usize
        requires { (from + word row 2) * 5 ≤ length inputs.now }
        ensures { Puts (definition.put_site (site_from (site_of row) inputs.now from)) out.old at out.new result }
    {
        let key = index(out, at, row[0]);
        let state = index(out, key, row[1]);
        list(out, state, &Input, inputs, from, row[2] as usize)
    }
}

pub fn sites(out: &mut [u8], at: usize, t: &[u64], used: usize, inputs: &[u64]) -> usize
    requires { SharesFit 2 3 used t.now 5 inputs.now }
    ensures { Puts (definition.put_list definition.put_site (sites_of t.now used inputs.now)) out.old at out.new result }
{
    owners(out, at, &Site, t, used, inputs)
}

// Name, access, this_type, parameters, chunk.
#[derive(Clone, Copy)]
pub struct Function;

impl Owner<7, 1> for Function {
    ghost counted = { 3 };

    ghost bytes = { λ f row parameters. definition.put_function (record { whole = function_of row; items = map parameter_of parameters }) };

    fn owned(row: [u64; 7]) -> usize
        ensures { result ≡ word row 3 }
    {
        row[3] as usize
    }

    fn put(
        &self,
        out: &mut [u8],
        at: usize,
        row: [u64; 7],
        parameters: &[u64],
        from: usize,
    ) -> usize
        requires { (from + word row 3) * 1 ≤ length parameters.now }
        ensures { Puts (definition.put_function (function_from (function_of row) parameters.now from)) out.old at out.new result }
    {
        let behind = index(out, at, row[0]);
        let opened = flag(out, behind, row[1]);
        let typed = this(out, opened, row[2]);
        let listed = list(out, typed, &Parameter, parameters, from, row[3] as usize);
        chunk(out, listed, row[4], row[5], row[6])
    }
}

pub fn functions(out: &mut [u8], at: usize, t: &[u64], used: usize, parameters: &[u64]) -> usize
    requires { SharesFit 3 7 used t.now 1 parameters.now }
    ensures { Puts (definition.put_list definition.put_function (functions_of t.now used parameters.now)) out.old at out.new result }
{
    owners(out, at, &Function, t, used, parameters)
}
