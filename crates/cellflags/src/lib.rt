// The flags of a cell: walkable 1, plus 2, 4, 8, 16 for a move from the NW, NE, SW, SE whose two side cells are walkable.
#![tactic(auto)]

ghost use Rattle.std.specs.Prelude.{◌≡◌, ◌*◌, ◌≤◌};
ghost use Rattle.cellflags.specs.CellFlags.{flags_of};

// The flag of a diagonal move, by its two side cells.
#[tactic(auto, using(crate::proofs::Bits::both_bits, crate::proofs::Bits::not_both))]
fn corner(one: u8, other: u8, flag: u8) -> u8
    requires { (one ≤ 1) × (other ≤ 1) }
    ensures { result ≡ flag * (one * other) }
{
    if one + other == 2 { flag } else { 0 }
}

// The flags of a cell.
#[tactic(auto, using(crate::proofs::Bits::bit_product), unfolding(crate::specs::CellFlags::flags_of))]
pub fn flags_of(cell: u8, west: u8, east: u8, north: u8, south: u8) -> u8
    requires { (cell ≤ 1) × (west ≤ 1) × (east ≤ 1) × (north ≤ 1) × (south ≤ 1) }
    ensures { result ≡ flags_of cell west east north south }
{
    cell + corner(west, north, 2)
        + corner(east, north, 4)
        + corner(west, south, 8)
        + corner(east, south, 16)
}
