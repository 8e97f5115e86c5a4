// Constants by their tag: which are function pointers, and which own items.
ghost use Rattle.std.specs.Prelude.{◌≡◌};
ghost use Rattle.rows.specs.Back.{constant_of};
ghost use Rattle.rows.specs.Tree.{items_of};
ghost use Rattle.emit.specs.Constants.{keys_of};
ghost use Rattle.emit.specs.Tags.{is_pointer, is_list};

use format::tags::ConstantTag;

// A function pointer, which every tag behind the others means.
pub fn pointer(tag: u64) -> bool
    ensures { result ≡ is_pointer tag }
{
    (ConstantTag::RANGE_INCLUSIVE as u64) < tag
}

// An array, a map and a function pointer.
pub fn listed(tag: u64) -> bool
    ensures { result ≡ is_list tag }
{
    pointer(tag) || tag == ConstantTag::ARRAY as u64 || tag == ConstantTag::MAP as u64
}

pub fn items_of(row: [u64; 8]) -> u64
    ensures { result ≡ items_of (constant_of row) }
{
    if listed(row[0]) { row[5] } else { 0 }
}

// The items of a map have keys.
pub fn has_keys(row: [u64; 8]) -> bool
    ensures { result ≡ keys_of (constant_of row) }
{
    row[0] == ConstantTag::MAP as u64
}
