// Edges of pixels.
ghost use Rattle.std.specs.Prelude.{◌≡◌, ◌+◌, ◌*◌, ◌/◌, ◌≤◌};
ghost use Rattle.walkgraph.specs.Painting.{clamp};

// A pixel edge clamped to 0..8 x size.
pub fn clamp(pixel: i32, size: usize) -> usize
    requires { size ≤ 1024 }
    ensures { result ≡ clamp (8 * size) pixel }
{
    (pixel.max(0) as usize).min(8 * size)
}

// The cell that a pixel lies in.
pub fn cell_of(pixel: usize) -> usize
    ensures { result ≡ pixel / 8 }
{
    pixel / 8
}

// The first cell past a pixel edge.
pub fn cell_past(pixel: usize) -> usize
    requires { pixel ≤ 8192 }
    ensures { result ≡ (pixel + 7) / 8 }
{
    (pixel + 7) / 8
}
