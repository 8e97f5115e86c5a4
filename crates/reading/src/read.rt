// The whole reader. Thirteen tables of whole rows are lent, whatever they hold.
ghost use Rattle.std.specs.Prelude.{[], ◌∷◌};
ghost use Rattle.reading.specs.Answer.{Answered};

use crate::artifact::artifact;
use crate::cleared;
use format::answer::{Artifact, Used};
use format::tags::Limit;
use refusal::Refusal;

// An acceptance leaves zeros behind the rows, a refusal zeros alone.
pub fn read(
    bytes: &[u8],
    mask: u8,
    names: &mut [u64],
    constants: &mut [u64],
    tokens: &mut [u64],
    assigns: &mut [u64],
    chains: &mut [u64],
    steps: &mut [u64],
    switches: &mut [u64],
    cases: &mut [u64],
    ranges: &mut [u64],
    customs: &mut [u64],
    inputs: &mut [u64],
    functions: &mut [u64],
    parameters: &mut [u64],
) -> Result<Artifact, Refusal>
    ensures { Answered mask bytes.now (names.old ∷ constants.old ∷ tokens.old ∷ assigns.old ∷ chains.old ∷ steps.old ∷ switches.old ∷ cases.old ∷ ranges.old ∷ customs.old ∷ inputs.old ∷ functions.old ∷ parameters.old ∷ []) (names.new ∷ constants.new ∷ tokens.new ∷ assigns.new ∷ chains.new ∷ steps.new ∷ switches.new ∷ cases.new ∷ ranges.new ∷ customs.new ∷ inputs.new ∷ functions.new ∷ parameters.new ∷ []) result }
{
    let answer = if Limit::BYTES < bytes.len() {
        Err(Refusal::TooLong {
            length: bytes.len(),
        })
    } else {
        artifact(
            bytes, mask, names, constants, tokens, assigns, chains, steps, switches, cases, ranges,
            customs, inputs, functions, parameters,
        )
    };
    let used = match answer {
        Ok(outside) => outside.used,
        Err(_) => Used::default(),
    };
    cleared::clear_behind(
        used, names, constants, tokens, assigns, chains, steps, switches, cases, ranges, customs,
        inputs, functions, parameters,
    );
    answer
}
