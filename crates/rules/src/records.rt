// A row of each table that holds numbers alone: whether it keeps rule 5, and rule 9.
ghost use Rattle.std.specs.Prelude.{◌≡◌};
ghost use Rattle.model.specs.Rules as definition;
ghost use Rattle.rules.specs.Fits.{root_fits, step_fits};

use crate::words::{among, fits_8, fits_16, fits_32, sound_chunk, sound_position, yes_no};

pub fn sound_assign(row: &[u64; 6]) -> bool
    ensures { result ≡ definition.sound_assign row.now }
{
    fits_32(row[2]) & fits_32(row[5])
}

pub fn known_chain(row: &[u64; 9]) -> bool
    ensures { result ≡ definition.known_chain row.now }
{
    among(4, row[0]) & among(3, row[7])
}

// Slot, name and position.
fn root_fits(row: &[u64; 9]) -> bool
    ensures { result ≡ root_fits row.now }
{
    (fits_16(row[1]) & fits_32(row[2])) & sound_position(row[3], row[4])
}

// What a root's tag uses.
fn root_by_tag(row: &[u64; 9]) -> bool
    ensures { result ≡ definition.sound_root row.now }
{
    match row[0] {
        1 => fits_16(row[1]) & fits_32(row[2]),
        3 => fits_32(row[2]) & sound_position(row[3], row[4]),
        4 => sound_position(row[3], row[4]),
        _ => true,
    }
}

// Words that a tag does not use are mostly 0: where all of them fit, no branch waits for the tag.
fn sound_root(row: &[u64; 9]) -> bool
    ensures { result ≡ definition.sound_root row.now }
{
    root_fits(row) || root_by_tag(row)
}

pub fn sound_chain(row: &[u64; 9]) -> bool
    ensures { result ≡ definition.sound_chain row.now }
{
    sound_root(row) & (fits_16(row[5]) & ((row[7] != 3) | fits_32(row[8])))
}

pub fn known_step(mask: u8, row: &[u64; 11]) -> bool
    ensures { result ≡ definition.known_step mask row.now }
{
    among(3, row[0]) & (row[1] & mask as u64 == row[1])
}

// Operand, bracket position, three names and argument count.
fn step_fits(row: &[u64; 11]) -> bool
    ensures { result ≡ step_fits row.now }
{
    let names = fits_32(row[3]) & (fits_32(row[4]) & fits_32(row[5]));
    (fits_16(row[2]) & sound_position(row[9], row[10])) & (names & fits_8(row[6]))
}

// What a step's tag uses.
fn step_by_tag(row: &[u64; 11]) -> bool
    ensures { result ≡ definition.sound_by_tag row.now }
{
    match row[0] {
        1 => fits_16(row[2]) & sound_position(row[9], row[10]),
        2 => fits_32(row[3]) & (fits_32(row[4]) & fits_32(row[5])),
        _ => fits_32(row[3]) & (fits_8(row[6]) & fits_16(row[2])),
    }
}

// As for roots.
fn sound_by_tag(row: &[u64; 11]) -> bool
    ensures { result ≡ definition.sound_by_tag row.now }
{
    step_fits(row) || step_by_tag(row)
}

pub fn sound_step(row: &[u64; 11]) -> bool
    ensures { result ≡ definition.sound_step row.now }
{
    sound_position(row[7], row[8]) & sound_by_tag(row)
}

pub fn sound_switch(row: &[u64; 3]) -> bool
    ensures { result ≡ definition.sound_switch row.now }
{
    fits_32(row[2])
}

pub fn sound_case(row: &[u64; 2]) -> bool
    ensures { result ≡ definition.sound_case row.now }
{
    fits_32(row[0]) & fits_32(row[1])
}

pub fn sound_range(row: &[u64; 4]) -> bool
    ensures { result ≡ definition.sound_range row.now }
{
    yes_no(row[2]) & fits_32(row[3])
}

pub fn sound_site(row: &[u64; 3]) -> bool
    ensures { result ≡ definition.sound_site row.now }
{
    fits_32(row[0]) & fits_32(row[1])
}

pub fn sound_input(row: &[u64; 5]) -> bool
    ensures { result ≡ definition.sound_input row.now }
{
    sound_chunk(row[0], row[1], row[2])
        & (yes_no(row[3]) & ((row[3] != 1) | (row[4] < 0xFFFF_FFFF)))
}

pub fn known_function(row: &[u64; 7]) -> bool
    ensures { result ≡ definition.known_function row.now }
{
    row[1] <= 1
}

pub fn sound_function(row: &[u64; 7]) -> bool
    ensures { result ≡ definition.sound_function row.now }
{
    fits_32(row[0]) & ((row[2] <= 0x1_0000_0000) & sound_chunk(row[4], row[5], row[6]))
}

pub fn sound_word(row: &[u64; 1]) -> bool
    ensures { result ≡ definition.sound_word row.now }
{
    fits_32(row[0])
}
