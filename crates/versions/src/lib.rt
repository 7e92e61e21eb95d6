// Versions of rows, and what each row last pulled: before the first sweep, and after the last.
#![tactic(auto)]

ghost use Rattle.std.specs.Prelude.{◌≡◌, ℕ, ◌+◌, ◌-◌, ◌≤◌, min, length};
ghost use Rattle.walkgraph.specs.Lists.{placed};
ghost use Rattle.window.specs.Fills.{entries};
ghost use Rattle.versions.specs.Versions.{VersionBuffers, BeforeSweeps, AfterSweeps};

use cells::boxes::CellBox;
use window::record::Window;

// A version that no row has: nothing was pulled yet.
const NEVER: u32 = u32::MAX;

// Writes one number to count entries from an index on.
fn set(numbers: &mut [u32], from: usize, count: usize, number: u32)
    requires { from + count ≤ length numbers.old }
    ensures { entries numbers.new ≡ placed (entries numbers.old) from count (λ (k : ℕ). number) }
{
    numbers[from..from + count].fill(number);
}

// The rows of the window above the sources.
pub fn above(window: Window, sources: CellBox) -> usize
    ensures { result ≡ min (sources.top - window.top) window.height }
{
    sources.top.saturating_sub(window.top).min(window.height)
}

// Before the first sweep versions are 0, and no row has pulled yet. But the rows above the sources, quiet in number,
// cannot change in the first sweep, and count as having pulled version 0.
pub fn unpulled(
    versions: &mut [u32],
    pulled_down: &mut [u32],
    pulled_up: &mut [u32],
    height: usize,
    quiet: usize,
)
    requires { VersionBuffers height (length versions.old) (length pulled_down.old) (length pulled_up.old) × (quiet ≤ height) }
    ensures { BeforeSweeps height quiet versions.old pulled_down.old pulled_up.old
        versions.new pulled_down.new pulled_up.new }
{
    set(versions, 0, height + 2, 0);
    set(pulled_down, 0, quiet + 1, 0);
    set(pulled_down, quiet + 1, height + 1 - quiet, NEVER);
    set(pulled_up, 0, height + 2, NEVER);
}

// After the last sweep all of them are 0.
pub fn cleared(versions: &mut [u32], pulled_down: &mut [u32], pulled_up: &mut [u32], height: usize)
    requires { VersionBuffers height (length versions.old) (length pulled_down.old) (length pulled_up.old) }
    ensures { AfterSweeps height versions.old pulled_down.old pulled_up.old
        versions.new pulled_down.new pulled_up.new }
{
    set(versions, 0, height + 2, 0);
    set(pulled_down, 0, height + 2, 0);
    set(pulled_up, 0, height + 2, 0);
}
