// Rule by rule, over the tables that each looks at. That the rows are there was tested before (rule 1). Functions here and in once.rt
// that look at the same tables differ in the tests that they give: one for both, given the tests as closures, reads no plainer.
ghost use Rattle.std.specs.Prelude.{◌≡◌, ◌*◌, ◌≤◌, length};
ghost use Rattle.model.specs.Rules as definition;
ghost use Rattle.model.specs.Told.{lent_is};

use crate::each::every;
use crate::records::{
    known_chain, known_function, known_step, sound_assign, sound_case, sound_chain, sound_function,
    sound_input, sound_range, sound_site, sound_step, sound_switch, sound_word,
};
use crate::shares::shares_use;
use crate::texts::{
    char_is_scalar, is_text, known_constant, lies, name_is_text, outside_lies, text_lies,
};
use crate::{names, trees};
use model::Lent;
use rows::row::cut;

// 1. shares use their tables exactly
pub fn shares_fit(l: &Lent) -> bool
    requires constants_in_bounds { l.now.outside.used.constants * 8 ≤ length l.now.constants.now }
    requires chains_in_bounds { l.now.outside.used.chains * 9 ≤ length l.now.chains.now }
    requires switches_in_bounds { l.now.outside.used.switches * 3 ≤ length l.now.switches.now }
    requires customs_in_bounds { l.now.outside.used.customs * 3 ≤ length l.now.customs.now }
    requires functions_in_bounds { l.now.outside.used.functions * 7 ≤ length l.now.functions.now }
    ensures { result ≡ definition.shares_fit l.now.outside.used l.now.outside.tops l.now.constants.now l.now.chains.now l.now.switches.now l.now.customs.now l.now.functions.now }
{
    let u = l.outside.used;
    let switches = cut::<3>(l.switches, u.switches);
    trees::exactly(cut(l.constants, u.constants), l.outside.tops)
        & (shares_use::<9>(cut(l.chains, u.chains), 6, u.steps)
            & (shares_use(switches, 0, u.cases)
                & (shares_use(switches, 1, u.ranges)
                    & (shares_use::<3>(cut(l.customs, u.customs), 2, u.inputs)
                        & shares_use::<7>(cut(l.functions, u.functions), 3, u.parameters)))))
}

// 2. spans lie in the lent text
pub fn spans_lie(l: &Lent) -> bool
    requires constants_in_bounds { l.now.outside.used.constants * 8 ≤ length l.now.constants.now }
    requires tokens_in_bounds { l.now.outside.used.tokens * 2 ≤ length l.now.tokens.now }
    requires assigns_in_bounds { l.now.outside.used.assigns * 6 ≤ length l.now.assigns.now }
    ensures { result ≡ definition.rule2 (lent_is l.now) }
{
    let (o, u, text) = (l.outside, l.outside.used, l.text);
    let constants = cut(l.constants, u.constants);
    let tree = every(constants, |row| text_lies(text, row))
        & trees::keys(constants, |row| lies(text, row[6], row[7]));
    let tokens = every(
        cut::<2>(l.tokens, u.tokens),
        |row| lies(text, row[0], row[1]),
    );
    let assigns = every(
        cut::<6>(l.assigns, u.assigns),
        |row| lies(text, row[0], row[1]) & lies(text, row[3], row[4]),
    );
    outside_lies(text, o.source, o.blob, o.code, o.positions) & (tree & (tokens & assigns))
}

// 3. strings are UTF-8
pub fn strings_are_utf8(l: &Lent) -> bool
    requires constants_in_bounds { l.now.outside.used.constants * 8 ≤ length l.now.constants.now }
    requires tokens_in_bounds { l.now.outside.used.tokens * 2 ≤ length l.now.tokens.now }
    requires assigns_in_bounds { l.now.outside.used.assigns * 6 ≤ length l.now.assigns.now }
    ensures { result ≡ definition.rule3 (lent_is l.now) }
{
    let (u, text) = (l.outside.used, l.text);
    let constants = cut(l.constants, u.constants);
    let tree = every(constants, |row| name_is_text(text, row))
        & trees::keys(constants, |row| is_text(text, row[6], row[7]));
    let tokens = every(
        cut::<2>(l.tokens, u.tokens),
        |row| is_text(text, row[0], row[1]),
    );
    let assigns = every(
        cut::<6>(l.assigns, u.assigns),
        |row| is_text(text, row[0], row[1]) & is_text(text, row[3], row[4]),
    );
    utf8::is_utf8_at(text, l.outside.source.start, l.outside.source.size)
        & (tree & (tokens & assigns))
}

// 4. the names rule
pub fn names_hold(l: &Lent) -> bool
    requires names_in_bounds { l.now.outside.used.names ≤ length l.now.names.now }
    ensures { result ≡ definition.rule4 (lent_is l.now) }
{
    let blob = l.outside.blob;
    names::ends(&l.names[..l.outside.used.names], blob.size)
        & utf8::is_utf8_at(l.text, blob.start, blob.size)
}

// 5. tags and access known, flags within the mask
pub fn known(mask: u8, l: &Lent) -> bool
    requires constants_in_bounds { l.now.outside.used.constants * 8 ≤ length l.now.constants.now }
    requires chains_in_bounds { l.now.outside.used.chains * 9 ≤ length l.now.chains.now }
    requires steps_in_bounds { l.now.outside.used.steps * 11 ≤ length l.now.steps.now }
    requires functions_in_bounds { l.now.outside.used.functions * 7 ≤ length l.now.functions.now }
    ensures { result ≡ definition.rule5 mask (lent_is l.now) }
{
    let u = l.outside.used;
    let constants = every(cut(l.constants, u.constants), known_constant);
    let chains = every(cut(l.chains, u.chains), known_chain);
    let steps = every(cut(l.steps, u.steps), |row| known_step(mask, row));
    let functions = every(cut(l.functions, u.functions), known_function);
    (constants & chains) & (steps & functions)
}

// 6. depth at most 64
pub fn shallow(l: &Lent) -> bool
    requires constants_in_bounds { l.now.outside.used.constants * 8 ≤ length l.now.constants.now }
    ensures { result ≡ definition.rule6 (lent_is l.now) }
{
    trees::shallow(cut(l.constants, l.outside.used.constants), l.outside.tops)
}

// 7. chars are scalars
pub fn chars_are_scalars(l: &Lent) -> bool
    requires constants_in_bounds { l.now.outside.used.constants * 8 ≤ length l.now.constants.now }
    ensures { result ≡ definition.rule7 (lent_is l.now) }
{
    every(cut(l.constants, l.outside.used.constants), char_is_scalar)
}

// 8. cases name top constants
pub fn cases_name_tops(l: &Lent) -> bool
    requires cases_in_bounds { l.now.outside.used.cases * 2 ≤ length l.now.cases.now }
    ensures { result ≡ definition.rule8 (lent_is l.now) }
{
    let tops = l.outside.tops as u64;
    every(cut::<2>(l.cases, l.outside.used.cases), |row| row[1] < tops)
}

// 9. numbers fit their kinds, positions and what is yes or no: names, assign records, chains and steps
pub fn sound_front(l: &Lent) -> bool
    requires names_in_bounds { l.now.outside.used.names ≤ length l.now.names.now }
    requires assigns_in_bounds { l.now.outside.used.assigns * 6 ≤ length l.now.assigns.now }
    requires chains_in_bounds { l.now.outside.used.chains * 9 ≤ length l.now.chains.now }
    requires steps_in_bounds { l.now.outside.used.steps * 11 ≤ length l.now.steps.now }
    ensures { result ≡ definition.sound_front l.now.outside.used l.now.names.now l.now.assigns.now l.now.chains.now l.now.steps.now }
{
    let u = l.outside.used;
    let ends = every(cut(l.names, u.names), sound_word);
    let assigns = every(cut(l.assigns, u.assigns), sound_assign);
    let chains = every(cut(l.chains, u.chains), sound_chain);
    let steps = every(cut(l.steps, u.steps), sound_step);
    (ends & assigns) & (chains & steps)
}

// switches, cases and ranges
pub fn sound_switches(l: &Lent) -> bool
    requires switches_in_bounds { l.now.outside.used.switches * 3 ≤ length l.now.switches.now }
    requires cases_in_bounds { l.now.outside.used.cases * 2 ≤ length l.now.cases.now }
    requires ranges_in_bounds { l.now.outside.used.ranges * 4 ≤ length l.now.ranges.now }
    ensures { result ≡ definition.sound_switches l.now.outside.used l.now.switches.now l.now.cases.now l.now.ranges.now }
{
    let u = l.outside.used;
    let switches = every(cut(l.switches, u.switches), sound_switch);
    let cases = every(cut(l.cases, u.cases), sound_case);
    let ranges = every(cut(l.ranges, u.ranges), sound_range);
    switches & (cases & ranges)
}

// custom sites and functions, inputs and parameters
pub fn sound_callables(l: &Lent) -> bool
    requires customs_in_bounds { l.now.outside.used.customs * 3 ≤ length l.now.customs.now }
    requires inputs_in_bounds { l.now.outside.used.inputs * 5 ≤ length l.now.inputs.now }
    requires functions_in_bounds { l.now.outside.used.functions * 7 ≤ length l.now.functions.now }
    requires parameters_in_bounds { l.now.outside.used.parameters ≤ length l.now.parameters.now }
    ensures { result ≡ definition.sound_callables l.now.outside.used l.now.customs.now l.now.inputs.now l.now.functions.now l.now.parameters.now }
{
    let u = l.outside.used;
    let customs = every(cut(l.customs, u.customs), sound_site);
    let inputs = every(cut(l.inputs, u.inputs), sound_input);
    let functions = every(cut(l.functions, u.functions), sound_function);
    let parameters = every(cut(l.parameters, u.parameters), sound_word);
    (customs & inputs) & (functions & parameters)
}
