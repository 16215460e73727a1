// The cell of a Three's eye on its line.
ghost use Rattle.std.specs.Prelude.{◌≡◌};
ghost use Rattle.rules.specs.Bit.{bit};
ghost use Rattle.rules.specs.Forbidden.{gap_from};

// The first of the cells j to j+2 without a stone of the mask, else j+3. Past bit 15 there is no stone.
pub fn first_gap(stones: u16, j: u8) -> u8
    ensures { result ≡ gap_from (bit stones) j }
{
    if 16 <= j {
        return j;
    }
    j + (u16::trailing_zeros(!(stones >> j) | 8) as u8)
}
