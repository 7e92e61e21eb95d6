// A strip: the lanes of one cell, by value. What it does, it does lane by lane as `onelane` says.
#![tactic(auto)]

ghost use Rattle.std.specs.Prelude.{◌≡◌, ◌+◌, ◌≤◌, length};
ghost use Rattle.std.proofs.Math.Seq.{paste};
ghost use Rattle.lane.specs.Levels.{level_at};
ghost use Rattle.onelane.specs.Takes.{SlantFits, out_at, back_at};
ghost use Rattle.strip.specs.Strips.{lanes_at, HasLevels};
ghost use Rattle.strip.specs.Marks.{HasMarks, kept_at, AreMarks, IsChanged};

use onelane;

// The lanes at an index.
pub fn load<const LANES: usize>(lanes: &[i16], at: usize) -> [i16; LANES]
    requires { at + LANES ≤ length lanes.now }
    ensures { result ≡ lanes_at lanes.now at LANES }
{
    let mut strip = [0i16; LANES];
    strip.copy_from_slice(&lanes[at..at + LANES]);
    strip
}

// Writes lanes at an index.
fn store<const LANES: usize>(lanes: &mut [i16], at: usize, strip: [i16; LANES])
    requires { at + LANES ≤ length lanes.old }
    ensures { lanes.new ≡ paste lanes.old at strip.entry LANES }
{
    lanes[at..at + LANES].copy_from_slice(&strip);
}

// The lanes of a walkable cell on the way out: its own are at index i, those that feed it at over, west and east, and its gates at
// west_gate and east_gate; beside are those of the cell that the way came from.
pub fn out<const LANES: usize>(
    lanes: &[i16],
    gates: &[i16],
    i: usize,
    over: usize,
    west: usize,
    east: usize,
    beside: [i16; LANES],
    west_gate: usize,
    east_gate: usize,
) -> [i16; LANES]
    requires { (i + LANES ≤ length lanes.now) × (over + LANES ≤ length lanes.now)
        × SlantFits LANES west east west_gate east_gate (length lanes.now) (length gates.now) }
    ensures { HasLevels LANES result
        (λ k. out_at (level_at lanes.now) (level_at gates.now) i over west east (level_at beside.entry k) west_gate east_gate k) }
{
    let mut strip = [0i16; LANES];
    for k in 0..LANES {
        strip[k] = onelane::out(
            lanes, gates, i, over, west, east, beside[k], west_gate, east_gate, k,
        );
    }
    strip
}

// The lanes of a cell on the way back: its own are at index i, and its gate at walk_gate.
pub fn back<const LANES: usize>(
    lanes: &[i16],
    gates: &[i16],
    i: usize,
    beside: [i16; LANES],
    walk_gate: usize,
) -> [i16; LANES]
    requires { (i + LANES ≤ length lanes.now) × (walk_gate + LANES ≤ length gates.now) }
    ensures { HasLevels LANES result (λ k. back_at (level_at lanes.now) (level_at gates.now) i (level_at beside.entry k) walk_gate k) }
{
    let mut strip = [0i16; LANES];
    for k in 0..LANES {
        strip[k] = onelane::back(lanes, gates, i, beside[k], walk_gate, k);
    }
    strip
}

// Lane by lane: still minus one where the strips agree, 0 where they differ.
fn kept<const LANES: usize>(
    same: [i16; LANES],
    old: [i16; LANES],
    new: [i16; LANES],
) -> [i16; LANES]
    ensures { HasMarks LANES result (kept_at same.entry old.entry new.entry) }
{
    let mut strip = [0i16; LANES];
    for k in 0..LANES {
        strip[k] = onelane::kept(same[k], old[k], new[k]);
    }
    strip
}

// Writes lanes at an index, and keeps the marks of those that it does not change.
pub fn put<const LANES: usize>(
    lanes: &mut [i16],
    at: usize,
    strip: [i16; LANES],
    same: [i16; LANES],
) -> [i16; LANES]
    requires { at + LANES ≤ length lanes.old }
    ensures { (lanes.new ≡ paste lanes.old at strip.entry LANES) × HasMarks LANES result (kept_at same.entry (lanes_at lanes.old at LANES) strip.entry) }
{
    let still = kept(same, load(lanes, at), strip);
    store(lanes, at, strip);
    still
}

// Whether some lane of what `kept` kept is 0: something changed.
pub fn changed<const LANES: usize>(same: [i16; LANES]) -> bool
    requires { AreMarks LANES same }
    ensures { IsChanged LANES same.entry result }
{
    same.contains(&0)
}
