// The edges of the window along one axis.
#![tactic(auto)]

ghost use Rattle.std.specs.Prelude.{◌≡◌, ◌≤◌};
ghost use Rattle.walkgraph.specs.Window.{floor_half, window_low, window_high};
ghost use Rattle.cells.specs.Boxes.{reach};

// How far a walk in the cap reaches, in straight steps.
pub const REACH: usize = 96;

// Half a sum, rounded toward minus infinity.
fn half(sum: i32) -> i32
    ensures { result ≡ floor_half sum }
{
    sum >> 1
}

// The window's first column or row, from those of the sources and the targets.
pub fn low(source: usize, target: usize) -> usize
    requires { (source ≤ 1024) × (target ≤ 1024) }
    ensures { result ≡ window_low reach source target }
{
    half(source as i32 + target as i32 - REACH as i32).max(0) as usize
}

// The window's last column or row, on a map of size columns or rows.
pub fn high(source: usize, target: usize, size: usize) -> usize
    requires { (source ≤ 1024) × (target ≤ 1024) × (1 ≤ size) }
    ensures { result ≡ window_high reach size source target }
{
    let middle = half(source as i32 + target as i32 + REACH as i32);
    (middle as usize).min(size - 1)
}
