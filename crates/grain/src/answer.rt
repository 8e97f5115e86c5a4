// The reader's answer as the 32 words that C is lent: an enum cannot be handed out.
ghost use Rattle.std.specs.Prelude.{◌≡◌};
ghost use Rattle.grain.specs.Words.{accepted_words, refused_words, words_of};

use format::answer::Artifact;
use refusal::{Refusal, Row};

pub fn words(a: Result<Artifact, Refusal>) -> [u64; 32]
    ensures { result ≡ words_of a }
{
    match a {
        Ok(artifact) => accepted_words(artifact),
        Err(r) => refused_words(Row::from(r)),
    }
}

// A line a word, in the order of specs/Words.antt.
fn accepted_words(a: Artifact) -> [u64; 32]
    ensures { result ≡ accepted_words a }
{
    let header = a.header;
    let source = a.source;
    let blob = a.blob;
    let code = a.code;
    let positions = a.positions;
    let main = a.main;
    let used = a.used;
    [
        0,
        0,
        0,
        header.caps as u64,
        header.low,
        header.high,
        source.start as u64,
        source.size as u64,
        blob.start as u64,
        blob.size as u64,
        code.start as u64,
        code.size as u64,
        positions.start as u64,
        positions.size as u64,
        main.entry as u64,
        main.end as u64,
        main.slots as u64,
        a.tops as u64,
        used.names as u64,
        used.constants as u64,
        used.tokens as u64,
        used.assigns as u64,
        used.chains as u64,
        used.steps as u64,
        used.switches as u64,
        used.cases as u64,
        used.ranges as u64,
        used.customs as u64,
        used.inputs as u64,
        used.functions as u64,
        used.parameters as u64,
        0,
    ]
}

fn refused_words(row: Row) -> [u64; 32]
    ensures { result ≡ refused_words row }
{
    let mut words = [0; 32];
    words[0] = row.number;
    words[1] = row.first;
    words[2] = row.second;
    words
}
