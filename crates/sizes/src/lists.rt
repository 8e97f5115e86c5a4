// Lists whose records stand in one table: name ends, operator tokens and assign records. That the count fits the table was tested before.
ghost use Rattle.std.specs.Prelude.{◌≡◌, ◌*◌, ◌≤◌, length};
ghost use Rattle.grammar.specs.Number.{shortest};
ghost use Rattle.rows.specs.Back.{records_of, end_of, span_of, assign_of};
ghost use Rattle.written.specs.Put as definition;
ghost use Rattle.model.specs.Lent.{clip};
ghost use Rattle.model.specs.Tables.{assign_means};
ghost use Rattle.sizes.specs.Counts.{Counts};

use crate::base::{number, plus};
use crate::record::{Counted, rows};
use crate::words::{index, spanned};
use emit::lists::{Assign, End, Token};

impl Counted<1> for End {
    ghost bytes = { λ e row. shortest (end_of row) };

    fn count(&self, at: usize, row: [u64; 1]) -> usize
        requires { at ≤ 1048577 }
        ensures { Counts (shortest (end_of row)) at result }
    {
        plus(at, index(row[0]))
    }
}

pub fn name_ends(at: usize, t: &[u64], used: usize) -> usize
    requires at_bound { at ≤ 1048577 }
    requires used_in_bounds { used * 1 ≤ length t.now }
    ensures { Counts (definition.put_list shortest (records_of 1 end_of used t.now)) at result }
{
    rows(plus(at, number(used as u64)), &End, t, used)
}

impl Counted<2> for Token<'_> {
    ghost bytes = { λ k row. definition.put_bytes (clip k.text.now (span_of row)) };

    fn count(&self, at: usize, row: [u64; 2]) -> usize
        requires { at ≤ 1048577 }
        ensures { Counts (definition.put_bytes (clip self.now.text.now (span_of row))) at result }
    {
        spanned(at, self.text, row[0], row[1])
    }
}

pub fn tokens(at: usize, t: &[u64], used: usize, s: &[u8]) -> usize
    requires at_bound { at ≤ 1048577 }
    requires used_in_bounds { used * 2 ≤ length t.now }
    ensures { Counts (definition.put_list definition.put_bytes (records_of 2 (λ row. clip s.now (span_of row)) used t.now)) at result }
{
    rows(plus(at, number(used as u64)), &Token { text: s }, t, used)
}

// Token, name index, token, name index.
impl Counted<6> for Assign<'_> {
    ghost bytes = { λ k row. definition.put_assign (assign_means k.text.now (assign_of row)) };

    fn count(&self, at: usize, row: [u64; 6]) -> usize
        requires { at ≤ 1048577 }
        ensures { Counts (definition.put_assign (assign_means self.now.text.now (assign_of row))) at result }
    {
        let first = spanned(at, self.text, row[0], row[1]);
        let second = spanned(first, self.text, row[3], row[4]);
        plus(second, index(row[2]) + index(row[5]))
    }
}

pub fn assigns(at: usize, t: &[u64], used: usize, s: &[u8]) -> usize
    requires at_bound { at ≤ 1048577 }
    requires used_in_bounds { used * 6 ≤ length t.now }
    ensures { Counts (definition.put_list definition.put_assign (records_of 6 (λ row. assign_means s.now (assign_of row)) used t.now)) at result }
{
    rows(plus(at, number(used as u64)), &Assign { text: s }, t, used)
}
