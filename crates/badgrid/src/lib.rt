// Refusal 1: the size of a map, and one byte a cell.
#![tactic(auto)]

ghost use Rattle.std.specs.Prelude.{◌≡◌, not};
ghost use Rattle.walkgraph.specs.Refusals.{bad_grid};
ghost use Rattle.badgrid.specs.Greatest.{greatest};
ghost use Rattle.badgrid.specs.Grids.{in_limits};

// The greatest byte, 0 of none. All bytes are read: a compiler then takes many at once.
fn greatest(cells: &[u8]) -> u8
    ensures { result ≡ greatest cells.now }
{
    cells.iter().copied().fold(0, u8::max)
}

// A width or a height is 1 to 1,024.
#[tactic(auto, unfolding(crate::specs::Grids::in_limits))]
fn size_ok(size: u32) -> bool
    ensures { result ≡ in_limits size }
{
    (1..=1024).contains(&size)
}

// Sizes in their limits, as many bytes as cells, no byte above 1.
#[tactic(auto, using(crate::proofs::Grids::good_grid))]
pub fn grid_ok(width: u32, height: u32, cells: &[u8]) -> bool
    ensures { result ≡ not (bad_grid width height cells.now) }
{
    size_ok(width)
        && size_ok(height)
        && cells.len() == width as usize * height as usize
        && greatest(cells) <= 1
}
