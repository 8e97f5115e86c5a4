// Tests of single words. They are joined by `&` and `|`, which judge both sides: what a test costs is less than a branch that cannot be
// foreseen.
ghost use Rattle.std.specs.Prelude.{◌≡◌};
ghost use Rattle.model.specs.Rules as definition;

pub fn fits_8(w: u64) -> bool
    ensures { result ≡ definition.bits 8 w }
{
    w < 0x100
}

pub fn fits_16(w: u64) -> bool
    ensures { result ≡ definition.bits 16 w }
{
    w < 0x1_0000
}

pub fn fits_32(w: u64) -> bool
    ensures { result ≡ definition.bits 32 w }
{
    w < 0x1_0000_0000
}

pub fn yes_no(w: u64) -> bool
    ensures { result ≡ definition.yes_no w }
{
    w <= 1
}

// A tag from 1 to the last.
pub fn among(most: u64, tag: u64) -> bool
    ensures { result ≡ definition.among most tag }
{
    (1 <= tag) & (tag <= most)
}

pub fn sound_position(line: u64, column: u64) -> bool
    ensures { result ≡ definition.sound_position line column }
{
    fits_16(line) & (fits_16(column) & ((line != 0) | (column == 0)))
}

pub fn sound_chunk(entry: u64, end: u64, slots: u64) -> bool
    ensures { result ≡ definition.sound_chunk entry end slots }
{
    fits_32(entry) & (fits_32(end) & fits_16(slots))
}
