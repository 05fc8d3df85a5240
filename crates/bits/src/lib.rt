// One byte: its bits, and the changes that a register takes.
#![tactic(auto)]

ghost use Rattle.std.specs.Prelude.{◌≡◌, cond};
ghost use Rattle.bits.specs.Bit.{has_bit, power_of, set_bit, merged, written};

// Whether bit k is 1; a byte has none from 8 on.
pub fn has(x: u8, k: u8) -> bool
    ensures { result ≡ has_bit x k }
{
    k < 8 && (x >> k) & 1 == 1
}

// The byte with bit k alone, 0 from 8 on.
pub fn power(k: u8) -> u8
    ensures { result ≡ power_of k }
{
    1u8.checked_shl(k as u32).unwrap_or(0)
}

pub fn set(x: u8, k: u8) -> u8
    ensures { result ≡ set_bit x k }
{
    x | power(k)
}

// The bits of new where mask has a 1, those of old elsewhere.
pub fn merge(mask: u8, old: u8, new: u8) -> u8
    ensures { result ≡ merged mask old new }
{
    (old & (255 - mask)) | (new & mask)
}

pub fn choose(first: bool, a: u8, b: u8) -> u8
    ensures { result ≡ cond first a b }
{
    if first { a } else { b }
}

// A write to a register: merged where it is taken, the old byte where not.
pub fn write(takes: bool, mask: u8, old: u8, new: u8) -> u8
    ensures { result ≡ written takes mask old new }
{
    choose(takes, merge(mask, old, new), old)
}
