// The rows of the tables that stay, and what stands behind them, cleared.
ghost use Rattle.std.specs.Prelude.{[], ◌∷◌, ◌≡◌};
ghost use Rattle.reading.specs.Places.{words_of, front_all};

use format::answer::Used;

// Of each table the rows stay, and every word behind them is 0.
pub fn clear_behind(
    used: Used,
    names: &mut [u64],
    constants: &mut [u64],
    tokens: &mut [u64],
    assigns: &mut [u64],
    chains: &mut [u64],
    steps: &mut [u64],
    switches: &mut [u64],
    cases: &mut [u64],
    ranges: &mut [u64],
    customs: &mut [u64],
    inputs: &mut [u64],
    functions: &mut [u64],
    parameters: &mut [u64],
)
    ensures { names.new ∷ constants.new ∷ tokens.new ∷ assigns.new ∷ chains.new ∷ steps.new ∷ switches.new ∷ cases.new ∷ ranges.new ∷ customs.new ∷ inputs.new ∷ functions.new ∷ parameters.new ∷ [] ≡ front_all (words_of used) (names.old ∷ constants.old ∷ tokens.old ∷ assigns.old ∷ chains.old ∷ steps.old ∷ switches.old ∷ cases.old ∷ ranges.old ∷ customs.old ∷ inputs.old ∷ functions.old ∷ parameters.old ∷ []) }
{
    tables::clear_behind(names, used.names, 1);
    tables::clear_behind(constants, used.constants, 8);
    tables::clear_behind(tokens, used.tokens, 2);
    tables::clear_behind(assigns, used.assigns, 6);
    tables::clear_behind(chains, used.chains, 9);
    tables::clear_behind(steps, used.steps, 11);
    tables::clear_behind(switches, used.switches, 3);
    tables::clear_behind(cases, used.cases, 2);
    tables::clear_behind(ranges, used.ranges, 4);
    tables::clear_behind(customs, used.customs, 3);
    tables::clear_behind(inputs, used.inputs, 5);
    tables::clear_behind(functions, used.functions, 7);
    tables::clear_behind(parameters, used.parameters, 1);
}
