// The number that is written for a word of a row.
ghost use Rattle.std.specs.Prelude.{◌≡◌, ◌+◌, ◌-◌, eqb, if◌then◌else◌};
ghost use Rattle.grammar.specs.Number.{zigzag};
ghost use Rattle.rows.specs.Back as definition;

// 1 for a word that is not 0.
pub fn bit(w: u64) -> u8
    ensures { result ≡ (if eqb w 0 then 0 else 1) }
{
    u8::from(w != 0)
}

// The number that means a signed one, from its bits.
pub fn folded(w: u64) -> u64
    ensures { result ≡ zigzag (definition.signed w) }
{
    if w < 0x8000_0000_0000_0000 {
        w << 1
    } else {
        !w << 1 | 1
    }
}

// The index to be written: FFFFFFFF where there is none.
pub fn told(present: u64, literal: u64) -> u64
    ensures { result ≡ (if eqb present 0 then 0xFFFFFFFF else definition.index literal) }
{
    if present == 0 {
        0xffff_ffff
    } else {
        literal % 0x1_0000_0000
    }
}

// One higher than the index, which is cut to its width.
pub fn typed(w: u64) -> u64
    ensures { result ≡ (if eqb w 0 then 0 else definition.index (w - 1) + 1) }
{
    if w == 0 {
        0
    } else {
        (w - 1) % 0x1_0000_0000 + 1
    }
}

// The line to be written: none where positions are stripped.
pub fn shown(strip: bool, line: u64) -> u64
    ensures { result ≡ (if strip then 0 else definition.small line) }
{
    if strip { 0 } else { line % 65536 }
}

// A column without a line is none.
pub fn beside(line: u64, column: u64) -> u64
    ensures { result ≡ (if eqb line 0 then 0 else definition.small column) }
{
    if line == 0 { 0 } else { column % 65536 }
}
