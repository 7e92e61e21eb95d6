// The limits of a room that the program takes, and arrays of zeros with room for any room in them, its text and its sheet.
#![tactic(auto)]

ghost use Rattle.std.specs.Prelude.{◌≡◌, ◌+◌, ◌*◌, replicate};
ghost use Rattle.roomlimits.specs.Limits.{in_limits};

// A room is not larger than the program takes.
#[tactic(auto, unfolding(crate::specs::Limits::in_limits))]
pub fn in_limits(width: usize, height: usize, blockers: usize, resources: usize) -> bool
    ensures { result ≡ in_limits width height blockers resources }
{
    height <= 60 && width <= 60 && blockers <= 64 && resources <= 8
}

// One byte more than the 8,192 that a room text has at most.
// Stays: three functions, not one with a const parameter, which would be `[0; N]` itself: each clause says from which limits its number comes.
pub fn text() -> [u8; 8193]
    ensures { result ≡ replicate (8192 + 1) 0 }
{
    [0; 8193]
}

// The 200,000 bytes that a sheet has at most.
pub fn sheet() -> [u8; 200000]
    ensures { result ≡ replicate 200000 0 }
{
    [0; 200000]
}

// An index for each cell of each resource's list of access cells.
pub fn access_cells() -> [u32; 28800]
    ensures { result ≡ replicate (8 * (60 * 60)) 0 }
{
    [0; 28800]
}
