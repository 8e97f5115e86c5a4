// Lists whose records stand in one table: name ends, operator tokens and assign records. That the count fits the table was tested before.
ghost use Rattle.std.specs.Prelude.{◌*◌, ◌≤◌, length};
ghost use Rattle.grammar.specs.Number.{shortest};
ghost use Rattle.rows.specs.Back.{records_of, end_of, span_of, assign_of};
ghost use Rattle.written.specs.Put as definition;
ghost use Rattle.model.specs.Lent.{clip};
ghost use Rattle.model.specs.Tables.{assign_means};
ghost use Rattle.emit.specs.Puts.{Puts};

use crate::record::{Record, list};
use crate::words::{index, text};

#[derive(Clone, Copy)]
pub struct End;

impl Record<1> for End {
    ghost bytes = { λ e row. shortest (end_of row) };

    fn put(&self, out: &mut [u8], at: usize, row: [u64; 1]) -> usize
        ensures { Puts (shortest (end_of row)) out.old at out.new result }
    {
        index(out, at, row[0])
    }
}

pub fn name_ends(out: &mut [u8], at: usize, t: &[u64], used: usize) -> usize
    requires { used * 1 ≤ length t.now }
    ensures { Puts (definition.put_list shortest (records_of 1 end_of used t.now)) out.old at out.new result }
{
    list(out, at, &End, t, 0, used)
}

#[derive(Clone, Copy)]
pub struct Token<'a> {
    pub text: &'a [u8],
}

impl Record<2> for Token<'_> {
    ghost bytes = { λ k row. definition.put_bytes (clip k.text.now (span_of row)) };

    fn put(&self, out: &mut [u8], at: usize, row: [u64; 2]) -> usize
        ensures { Puts (definition.put_bytes (clip self.now.text.now (span_of row))) out.old at out.new result }
    {
        text(out, at, self.text, row[0], row[1])
    }
}

pub fn tokens(out: &mut [u8], at: usize, t: &[u64], used: usize, s: &[u8]) -> usize
    requires { used * 2 ≤ length t.now }
    ensures { Puts (definition.put_list definition.put_bytes (records_of 2 (λ row. clip s.now (span_of row)) used t.now)) out.old at out.new result }
{
    list(out, at, &Token { text: s }, t, 0, used)
}

// Token, name index, token, name index.
#[derive(Clone, Copy)]
pub struct Assign<'a> {
    pub text: &'a [u8],
}

impl Record<6> for Assign<'_> {
    ghost bytes = { λ k row. definition.put_assign (assign_means k.text.now (assign_of row)) };

    fn put(&self, out: &mut [u8], at: usize, row: [u64; 6]) -> usize
        ensures { Puts (definition.put_assign (assign_means self.now.text.now (assign_of row))) out.old at out.new result }
    {
        let token = text(out, at, self.text, row[0], row[1]);
        let named = index(out, token, row[2]);
        let other = text(out, named, self.text, row[3], row[4]);
        index(out, other, row[5])
    }
}

pub fn assigns(out: &mut [u8], at: usize, t: &[u64], used: usize, s: &[u8]) -> usize
    requires { used * 6 ≤ length t.now }
    ensures { Puts (definition.put_list definition.put_assign (records_of 6 (λ row. assign_means s.now (assign_of row)) used t.now)) out.old at out.new result }
{
    list(out, at, &Assign { text: s }, t, 0, used)
}
