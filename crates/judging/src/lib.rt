#![tactic(auto, unfolding(model::specs::Written::broken_of_ten, model::specs::Written::first_of_ten))]
// The lowest rule of well-formed tables that is broken, of the ten that do not ask for the length: document 01, "Well-formed tables,
// and writing". Each test stands on those before it: rows that are not there are not looked at.
ghost use Rattle.std.specs.Prelude.{◌≡◌, true, false, ◌&&◌, ◌≤◌, length, MatchResult};
ghost use Rattle.refusal.specs.declared.Refusal.{Refusal};
ghost use Rattle.rows.specs.Back.{cut};
ghost use Rattle.model.specs.Lent.{every};
ghost use Rattle.model.specs.Rules as definition;
ghost use Rattle.model.specs.Told.{lent_is};
ghost use Rattle.model.specs.Written.{broken_of_ten};
ghost use Rattle.judging.specs.Judged.{judged};
ghost use Rattle.judging.specs.Standing.{RowsStand};

use model::Lent;
use refusal::Refusal;
use rows::row;
use rules::{counts, each, once, positions, records, texts, whole};

// BadModel with the lowest broken rule, if one is broken.
pub fn judge(mask: u8, l: &Lent) -> Result<(), Refusal>
    ensures { result ≡ judged (broken_of_ten mask (lent_is l.now)) }
{
    holds(1, counts::counts_fit(l))?;
    if none_broken(mask, l) {
        return Ok(());
    }
    first_broken(mask, l)
}

fn holds(rule: u8, kept: bool) -> Result<(), Refusal>
    ensures { MatchResult result (λ u. kept ≡ true) (λ e. (kept ≡ false) × (e ≡ Refusal.BadModel rule)) }
{
    if kept {
        Ok(())
    } else {
        Err(Refusal::BadModel { rule })
    }
}

// Where the rows are there: whether none is broken, each table looked at once. If it says no, the rules are judged one by one.
fn none_broken(mask: u8, l: &Lent) -> bool
    requires { RowsStand (lent_is l.now) }
    ensures { result ≡ true → broken_of_ten mask (lent_is l.now) ≡ 0 }
{
    whole::shares_fit(l)
        && whole::shallow(l)
        && around_holds(l)
        && once::texts_keep(l)
        && once::links_keep(mask, l)
        && once::switches_keep(l)
        && once::callables_keep(l)
        && positions::sound_table(l.text, l.outside.positions)
}

// What stands outside the tables, and the names.
fn around_holds(l: &Lent) -> bool
    requires { l.now.outside.used.names ≤ length l.now.names.now }
    ensures { result ≡ ((l.now.numbers_fit && definition.outside_lies l.now.text.now l.now.outside.source l.now.outside.blob l.now.outside.code l.now.outside.positions) && ((definition.is_text l.now.text.now l.now.outside.source && definition.rule4 (lent_is l.now)) && every definition.sound_word (cut 1 l.now.outside.used.names l.now.names.now))) }
{
    let o = l.outside;
    let lie = texts::outside_lies(l.text, o.source, o.blob, o.code, o.positions);
    let strings = utf8::is_utf8_at(l.text, o.source.start, o.source.size) & whole::names_hold(l);
    let ends = each::every(row::cut(l.names, o.used.names), records::sound_word);
    (l.numbers_fit & lie) & (strings & ends)
}

// Where the rows are there: rule by rule, the lowest first.
fn first_broken(mask: u8, l: &Lent) -> Result<(), Refusal>
    requires { RowsStand (lent_is l.now) }
    ensures { result ≡ judged (broken_of_ten mask (lent_is l.now)) }
{
    holds(1, whole::shares_fit(l))?;
    holds(2, whole::spans_lie(l))?;
    holds(3, whole::strings_are_utf8(l))?;
    holds(4, whole::names_hold(l))?;
    holds(5, whole::known(mask, l))?;
    holds(6, whole::shallow(l))?;
    holds(7, whole::chars_are_scalars(l))?;
    holds(8, whole::cases_name_tops(l))?;
    holds(9, numbers_fit(l))?;
    holds(10, positions::sound_table(l.text, l.outside.positions))
}

// 9. numbers fit their kinds, outside the tables and in them
fn numbers_fit(l: &Lent) -> bool
    requires { RowsStand (lent_is l.now) }
    ensures { result ≡ definition.rule9 (lent_is l.now) }
{
    let items = whole::sound_switches(l) & whole::sound_callables(l);
    l.numbers_fit & (whole::sound_front(l) & items)
}
