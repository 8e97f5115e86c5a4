// What all rules together ask of the rows of each table, so that a table is looked at once: specs/Once.antt.
ghost use Rattle.std.specs.Prelude.{◌≡◌, ◌*◌, ◌≤◌, length};
ghost use Rattle.model.specs.Told.{lent_is};
ghost use Rattle.rules.specs.Once as once;

use crate::each::every;
use crate::records::{
    known_chain, known_function, known_step, sound_assign, sound_case, sound_chain, sound_function,
    sound_input, sound_range, sound_site, sound_step, sound_switch, sound_word,
};
use crate::texts::{char_is_scalar, is_text, known_constant, lies, name_is_text, text_lies};
use crate::trees;
use model::Lent;
use rows::row::cut;

fn text_keeps(text: &[u8], start: u64, size: u64) -> bool
    ensures { result ≡ once.text_keeps text.now (record { start = start; size = size }) }
{
    lies(text, start, size) & is_text(text, start, size)
}

fn constant_keeps(text: &[u8], row: &[u64; 8]) -> bool
    ensures { result ≡ once.constant_keeps text.now row.now }
{
    (text_lies(text, row) & name_is_text(text, row)) & (known_constant(row) & char_is_scalar(row))
}

fn assign_keeps(text: &[u8], row: &[u64; 6]) -> bool
    ensures { result ≡ once.assign_keeps text.now row.now }
{
    sound_assign(row) & (text_keeps(text, row[0], row[1]) & text_keeps(text, row[3], row[4]))
}

// constants, tokens and assign records
pub fn texts_keep(l: &Lent) -> bool
    requires constants_in_bounds { l.now.outside.used.constants * 8 ≤ length l.now.constants.now }
    requires tokens_in_bounds { l.now.outside.used.tokens * 2 ≤ length l.now.tokens.now }
    requires assigns_in_bounds { l.now.outside.used.assigns * 6 ≤ length l.now.assigns.now }
    ensures { result ≡ once.texts_keep (lent_is l.now) }
{
    let (u, text) = (l.outside.used, l.text);
    let constants = cut(l.constants, u.constants);
    let tree = every(constants, |row| constant_keeps(text, row))
        & trees::keys(constants, |row| text_keeps(text, row[6], row[7]));
    let tokens = every(
        cut::<2>(l.tokens, u.tokens),
        |row| text_keeps(text, row[0], row[1]),
    );
    let assigns = every(cut(l.assigns, u.assigns), |row| assign_keeps(text, row));
    tree & (tokens & assigns)
}

// chains and steps
pub fn links_keep(mask: u8, l: &Lent) -> bool
    requires chains_in_bounds { l.now.outside.used.chains * 9 ≤ length l.now.chains.now }
    requires steps_in_bounds { l.now.outside.used.steps * 11 ≤ length l.now.steps.now }
    ensures { result ≡ once.links_keep mask (lent_is l.now) }
{
    let u = l.outside.used;
    let chains = every(
        cut(l.chains, u.chains),
        |row| known_chain(row) & sound_chain(row),
    );
    let steps = every(
        cut(l.steps, u.steps),
        |row| known_step(mask, row) & sound_step(row),
    );
    chains & steps
}

// switches, cases and ranges
pub fn switches_keep(l: &Lent) -> bool
    requires switches_in_bounds { l.now.outside.used.switches * 3 ≤ length l.now.switches.now }
    requires cases_in_bounds { l.now.outside.used.cases * 2 ≤ length l.now.cases.now }
    requires ranges_in_bounds { l.now.outside.used.ranges * 4 ≤ length l.now.ranges.now }
    ensures { result ≡ once.switches_keep (lent_is l.now) }
{
    let (u, tops) = (l.outside.used, l.outside.tops as u64);
    let switches = every(cut(l.switches, u.switches), sound_switch);
    let cases = every(
        cut(l.cases, u.cases),
        |row| (row[1] < tops) & sound_case(row),
    );
    let ranges = every(cut(l.ranges, u.ranges), sound_range);
    switches & (cases & ranges)
}

// custom sites and functions, inputs and parameters
pub fn callables_keep(l: &Lent) -> bool
    requires customs_in_bounds { l.now.outside.used.customs * 3 ≤ length l.now.customs.now }
    requires inputs_in_bounds { l.now.outside.used.inputs * 5 ≤ length l.now.inputs.now }
    requires functions_in_bounds { l.now.outside.used.functions * 7 ≤ length l.now.functions.now }
    requires parameters_in_bounds { l.now.outside.used.parameters ≤ length l.now.parameters.now }
    ensures { result ≡ once.callables_keep (lent_is l.now) }
{
    let u = l.outside.used;
    let customs = every(cut(l.customs, u.customs), sound_site);
    let inputs = every(cut(l.inputs, u.inputs), sound_input);
    let functions = every(
        cut(l.functions, u.functions),
        |row| known_function(row) & sound_function(row),
    );
    let parameters = every(cut(l.parameters, u.parameters), sound_word);
    (customs & inputs) & (functions & parameters)
}
