// The sweeps of a field, with its version buffers: made before the first sweep, and cleared after the last.
ghost use Rattle.row.specs.Buffers.{as_ground};
ghost use Rattle.sweep.specs.Relaxes.{RelaxFits, Relaxed};

use crate::run;
use row::visit::Ground;
use versions;

// The sweeps over a window whose first rows, quiet in number, cannot change in the first sweep: how many.
pub fn relax(
    lanes: &mut [i16],
    versions: &mut [u32],
    pulled_down: &mut [u32],
    pulled_up: &mut [u32],
    ground: Ground,
    quiet: usize,
) -> usize
    requires { RelaxFits ground.lane_count ground.stride ground.height quiet
        lanes.old ground.flags.now ground.rows.now versions.old pulled_down.old pulled_up.old }
    ensures { Relaxed (as_ground ground.entry) ground.entry.height quiet
        lanes.old versions.old pulled_down.old pulled_up.old
        lanes.new versions.new pulled_down.new pulled_up.new result }
{
    versions::unpulled(versions, pulled_down, pulled_up, ground.height, quiet);
    let sweeps = run::run(lanes, versions, pulled_down, pulled_up, ground);
    versions::cleared(versions, pulled_down, pulled_up, ground.height);
    sweeps
}
