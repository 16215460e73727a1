// Single bits of a mask, and runs of bits.
ghost use Rattle.std.specs.Prelude.{◌≡◌, leb, ltb};
ghost use Rattle.rules.specs.Bit.{bit, mask_of};
ghost use Rattle.rules.specs.Grid.{value_of};
ghost use Rattle.masks.specs.Masks.{placed};

// Whether bit i is set.
pub fn bit_at(m: u16, i: u8) -> bool
    ensures { result ≡ bit m i }
{
    i < 16 && m >> i & 1 == 1
}

// A mask with bit i as `on` says. A bit over 15 changes nothing.
pub fn set_bit(m: u16, i: u8, on: bool) -> u16
    ensures { result ≡ mask_of 16 (placed (bit m) i on) }
{
    if 16 <= i {
        return m;
    }
    if on { m | 1 << i } else { m & !(1 << i) }
}

// The value of cell i of a line with these stones: 0 empty, 1 black, 2 white.
pub fn cell_value(blacks: u16, whites: u16, i: u8) -> u8
    ensures { result ≡ value_of (bit blacks i) (bit whites i) }
{
    if bit_at(blacks, i) {
        return 1;
    }
    if bit_at(whites, i) { 2 } else { 0 }
}

// The bits from `from` on.
pub(crate) fn bits_from(from: u8) -> u16
    ensures { result ≡ mask_of 16 (λ j. leb from j) }
{
    if from < 16 { 65535u16 << from } else { 0 }
}

// The bits below `end`.
pub(crate) fn bits_below(end: u8) -> u16
    ensures { result ≡ mask_of 16 (λ j. ltb j end) }
{
    !bits_from(end)
}
