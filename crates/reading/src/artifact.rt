// The sections in file order, then the end of the file.
ghost use Rattle.std.specs.Prelude.{[], ◌∷◌, ◌≡◌, length, Ok};
ghost use Rattle.grammar.specs.Combinators.{ended};
ghost use Rattle.grammar.specs.Read.{answer};
ghost use Rattle.reading.specs.Sections.{whole, Sections};

use format::answer::{Artifact, Used};
use grammar::{Cursor, Read};
use refusal::Refusal;

// The first refusal, or what stands outside the tables. Each section is read into its tables, whatever they hold; of a refused file nothing is
// said of them here, since `read` clears them all.
pub fn artifact(
    s: &[u8],
    mask: u8,
    names: &mut [u64],
    constants: &mut [u64],
    tokens: &mut [u64],
    assigns: &mut [u64],
    chains: &mut [u64],
    steps: &mut [u64],
    switches: &mut [u64],
    cases: &mut [u64],
    ranges: &mut [u64],
    customs: &mut [u64],
    inputs: &mut [u64],
    functions: &mut [u64],
    parameters: &mut [u64],
) -> Result<Artifact, Refusal>
    ensures { Sections (whole mask s.now (names.old ∷ constants.old ∷ tokens.old ∷ assigns.old ∷ chains.old ∷ steps.old ∷ switches.old ∷ cases.old ∷ ranges.old ∷ customs.old ∷ inputs.old ∷ functions.old ∷ parameters.old ∷ [])) (names.old ∷ constants.old ∷ tokens.old ∷ assigns.old ∷ chains.old ∷ steps.old ∷ switches.old ∷ cases.old ∷ ranges.old ∷ customs.old ∷ inputs.old ∷ functions.old ∷ parameters.old ∷ []) (names.new ∷ constants.new ∷ tokens.new ∷ assigns.new ∷ chains.new ∷ steps.new ∷ switches.new ∷ cases.new ∷ ranges.new ∷ customs.new ∷ inputs.new ∷ functions.new ∷ parameters.new ∷ []) result }
{
    let (header, c) = sections::header::header(s, Cursor::new())?;
    let (source, c) = fields::string(s, c)?;
    let (named, c) = sections::names::names(s, c, names)?;
    let (pool, c) = constants::constants(s, c, constants)?;
    let (tokens, c) = sections::tokens::tokens(s, c, tokens)?;
    let (assigns, c) = sections::assigns::assigns(s, c, assigns)?;
    let ((chains, steps), c) = chains::chains(s, c, mask, chains, steps)?;
    let (switched, c) = switches::switches(s, c, pool.tops, switches, cases, ranges)?;
    let ((customs, inputs), c) = callables::customs::customs(s, c, customs, inputs)?;
    let (main, c) = fields::chunk(s, c)?;
    let ((functions, parameters), c) = callables::functions::functions(
        s, c, functions, parameters,
    )?;
    let (code, c) = fields::run(s, c)?;
    let (positions, c) = sections::positions::positions(s, c)?;
    end(s, c)?;
    Ok(Artifact {
        header,
        source,
        blob: named.blob,
        tops: pool.tops,
        main,
        code,
        positions,
        used: Used {
            names: named.used,
            constants: pool.used,
            tokens,
            assigns,
            chains,
            steps,
            switches: switched.used,
            cases: switched.cases,
            ranges: switched.ranges,
            customs,
            inputs,
            functions,
            parameters,
        },
    })
}

// What is left over is counted.
fn end(s: &[u8], c: Cursor) -> Read<()>
    ensures { ended s.now tt c ≡ answer result }
{
    if c.at == s.len() {
        Ok(((), c))
    } else {
        Err(Refusal::TrailingBytes {
            count: s.len().saturating_sub(c.at),
        })
    }
}
