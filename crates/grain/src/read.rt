// The reader of a whole artifact, for C.
ghost use Rattle.std.specs.Prelude.{[], ◌∷◌};
ghost use Rattle.grain.specs.Words.{Leaves};

use crate::answer;
use reading::read;

// Thirteen tables of words are lent, and the 32 words of the answer. A refusal leaves every word of the tables zero.
pub fn grain_read(
    bytes: &[u8],
    mask: u8,
    names: &mut [u64],
    constants: &mut [u64],
    tokens: &mut [u64],
    assigns: &mut [u64],
    chains: &mut [u64],
    steps: &mut [u64],
    switches: &mut [u64],
    cases: &mut [u64],
    ranges: &mut [u64],
    customs: &mut [u64],
    inputs: &mut [u64],
    functions: &mut [u64],
    parameters: &mut [u64],
    answer: &mut [u64; 32],
) -> u64
    ensures { Leaves mask bytes.now (names.old ∷ constants.old ∷ tokens.old ∷ assigns.old ∷ chains.old ∷ steps.old ∷ switches.old ∷ cases.old ∷ ranges.old ∷ customs.old ∷ inputs.old ∷ functions.old ∷ parameters.old ∷ []) (names.new ∷ constants.new ∷ tokens.new ∷ assigns.new ∷ chains.new ∷ steps.new ∷ switches.new ∷ cases.new ∷ ranges.new ∷ customs.new ∷ inputs.new ∷ functions.new ∷ parameters.new ∷ []) answer.new result }
{
    let a = read::read(
        bytes, mask, names, constants, tokens, assigns, chains, steps, switches, cases, ranges,
        customs, inputs, functions, parameters,
    );
    let words = answer::words(a);
    *answer = words;
    words[0]
}
