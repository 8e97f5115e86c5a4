// The writer of a whole artifact, for C.
ghost use Rattle.model.specs.Lent.{lent};
ghost use Rattle.grain.specs.Heading.{outside_of, heading_fits, Tells};

use crate::heading;
use crate::positions::{encoded_row, put_values};
use model::Lent;
use writing::write;

// The words that `grain_read` answers, thirteen tables and the text are lent to be looked at, the output to be written in. A refusal
// leaves the output untouched.
pub fn grain_write(
    heading: &[u64; 32],
    names: &[u64],
    constants: &[u64],
    tokens: &[u64],
    assigns: &[u64],
    chains: &[u64],
    steps: &[u64],
    switches: &[u64],
    cases: &[u64],
    ranges: &[u64],
    customs: &[u64],
    inputs: &[u64],
    functions: &[u64],
    parameters: &[u64],
    text: &[u8],
    mask: u8,
    strip: u8,
    out: &mut [u8],
    values: &mut [u64; 2],
) -> u64
    ensures { Tells mask strip (lent (outside_of heading.now) (heading_fits heading.now) names.now constants.now tokens.now assigns.now chains.now steps.now switches.now cases.now ranges.now customs.now inputs.now functions.now parameters.now text.now) out.old out.new values.new result }
{
    let words = *heading;
    let l = Lent {
        outside: heading::outside(words),
        numbers_fit: heading::fits(words),
        names,
        constants,
        tokens,
        assigns,
        chains,
        steps,
        switches,
        cases,
        ranges,
        customs,
        inputs,
        functions,
        parameters,
        text,
    };
    let row = encoded_row(write::write(&l, mask, strip != 0, out));
    put_values(values, row);
    row.number
}
