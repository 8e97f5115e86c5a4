// What stands outside the tables, from the 32 words in which `grain_read` tells it: specs/Heading.antt has their order.
ghost use Rattle.std.specs.Prelude.{◌≡◌};
ghost use Rattle.grain.specs.Heading.{outside_of, heading_fits};

use format::answer::{Artifact, Header, Used};
use format::records::Chunk;
use grammar::Span;
use rules::words::{fits_32, sound_chunk};

// Words that are wider than their kinds lose what is above: `fits` tells them.
pub fn outside(words: [u64; 32]) -> Artifact
    ensures { result ≡ outside_of words }
{
    Artifact {
        header: Header {
            caps: (words[3] % 0x1_0000_0000) as u32,
            low: words[4],
            high: words[5],
        },
        source: span(words[6], words[7]),
        blob: span(words[8], words[9]),
        tops: words[17] as usize,
        main: Chunk {
            entry: (words[14] % 0x1_0000_0000) as u32,
            end: (words[15] % 0x1_0000_0000) as u32,
            slots: (words[16] % 0x1_0000) as u16,
        },
        code: span(words[10], words[11]),
        positions: span(words[12], words[13]),
        used: used(words),
    }
}

fn span(start: u64, size: u64) -> Span
    ensures { result ≡ record { start = start; size = size } }
{
    Span {
        start: start as usize,
        size: size as usize,
    }
}

fn used(words: [u64; 32]) -> Used
    ensures { result ≡ (outside_of words).used }
{
    Used {
        names: words[18] as usize,
        constants: words[19] as usize,
        tokens: words[20] as usize,
        assigns: words[21] as usize,
        chains: words[22] as usize,
        steps: words[23] as usize,
        switches: words[24] as usize,
        cases: words[25] as usize,
        ranges: words[26] as usize,
        customs: words[27] as usize,
        inputs: words[28] as usize,
        functions: words[29] as usize,
        parameters: words[30] as usize,
    }
}

// Whether the numbers outside the tables fit their kinds (rule 9).
pub fn fits(words: [u64; 32]) -> bool
    ensures { result ≡ heading_fits words }
{
    fits_32(words[3]) & sound_chunk(words[14], words[15], words[16])
}
