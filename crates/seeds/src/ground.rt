// The states before any cell is labelled.
ghost use Rattle.std.specs.Prelude.{◌≡◌, ℕ, ◌≤◌, get_or, length};
ghost use Rattle.seeds.specs.Sowing.{Grounded};

// Makes each state 65535 where the cell is walkable, and 0 where not.
pub fn ground(cells: &[u8], states: &mut [u16])
    requires { (length states.old ≡ length cells.now) × ((k : ℕ) → get_or cells.now k 0 ≤ 1) }
    ensures { Grounded cells.now states.old states.new }
{
    for (k, state) in states.iter_mut().enumerate() {
        *state = u16::from(cells[k]) * 65535;
    }
}
