// Rule 1, its first half: the places of each table are enough for the rows that are said to be used.
ghost use Rattle.std.specs.Prelude.{◌≡◌, ◌/◌, ◌<◌, leb};
ghost use Rattle.model.specs.Rules as definition;
ghost use Rattle.model.specs.Told.{lent_is};

use model::Lent;

pub fn fits(used: usize, width: usize, words: usize) -> bool
    requires { 0 < width }
    ensures { result ≡ leb used (words / width) }
{
    used <= words / width
}

pub fn counts_fit(l: &Lent) -> bool
    ensures { result ≡ definition.counts_fit (lent_is l.now) }
{
    let u = l.outside.used;
    let first = (fits(u.names, 1, l.names.len()) & fits(u.constants, 8, l.constants.len()))
        & (fits(u.tokens, 2, l.tokens.len()) & fits(u.assigns, 6, l.assigns.len()));
    let links = fits(u.chains, 9, l.chains.len()) & fits(u.steps, 11, l.steps.len());
    let switches = fits(u.switches, 3, l.switches.len())
        & (fits(u.cases, 2, l.cases.len()) & fits(u.ranges, 4, l.ranges.len()));
    let callables = (fits(u.customs, 3, l.customs.len()) & fits(u.inputs, 5, l.inputs.len()))
        & (fits(u.functions, 7, l.functions.len()) & fits(u.parameters, 1, l.parameters.len()));
    first & ((links & switches) & callables)
}
