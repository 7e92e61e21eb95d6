// Where a ring box ends: on the map.
#![tactic(auto)]

ghost use Rattle.std.specs.Prelude.{◌≡◌, ◌+◌, ◌-◌, ◌≤◌, min};

// The cell after, clamped to a map of size columns or rows.
pub fn after(cell: usize, size: usize) -> usize
    requires { (cell ≤ 1024) × (1 ≤ size) }
    ensures { result ≡ min (size - 1) (cell + 1) }
{
    (cell + 1).min(size - 1)
}
