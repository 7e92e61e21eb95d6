// Painting: blockers make walk bytes unwalkable.
ghost use Rattle.std.specs.Prelude.{◌≡◌, ◌+◌, ◌*◌, ◌/◌, ◌≤◌, length};
ghost use Rattle.window.specs.Fills.{entries};
ghost use Rattle.walkbytes.specs.Painting.{Paints, Pixels, box_painted, blocker_painted, blockers_painted};

use cells::edge;
use fournumbers;
use paintrows;
use window::record::Window;

// A rectangle of pixels of the map, right and bottom exclusive.
#[derive(Clone, Copy)]
struct PixelBox {
    left: usize,
    top: usize,
    right: usize,
    bottom: usize,
}

// Paints the cells of a rectangle of clamped pixels that lie in the window.
fn paint_box(walk: &mut [u8], window: Window, pixels: PixelBox)
    requires { Paints window (length walk.old) × Pixels pixels.left pixels.top pixels.right pixels.bottom }
    ensures { entries walk.new ≡ box_painted window pixels.left pixels.top pixels.right pixels.bottom (entries walk.old) }
{
    if pixels.left < pixels.right && pixels.top < pixels.bottom {
        let left = edge::cell_of(pixels.left).max(window.left);
        let top = edge::cell_of(pixels.top).max(window.top);
        let right = edge::cell_past(pixels.right).min(window.left + window.width);
        let bottom = edge::cell_past(pixels.bottom).min(window.top + window.height);
        let stride = window.stride();
        paintrows::paint_rows(
            walk,
            stride,
            (top - window.top + 1) * stride + (left - window.left + 1),
            bottom.saturating_sub(top),
            right.saturating_sub(left),
        );
    }
}

// Paints blocker k, on a map of width by height.
fn paint_blocker(
    walk: &mut [u8],
    blockers: &[i32],
    k: usize,
    window: Window,
    width: usize,
    height: usize,
)
    requires { Paints window (length walk.old) × (width ≤ 1024) × (height ≤ 1024) × (4 * k + 4 ≤ length blockers.now) }
    ensures { entries walk.new ≡ blocker_painted window width height blockers.now k (entries walk.old) }
{
    let corners = fournumbers::corners_at(blockers, k);
    paint_box(
        walk,
        window,
        PixelBox {
            left: edge::clamp(corners.left, width),
            top: edge::clamp(corners.top, height),
            right: edge::clamp(corners.right, width),
            bottom: edge::clamp(corners.bottom, height),
        },
    );
}

// Paints all blockers, on a map of width by height.
pub fn paint(walk: &mut [u8], blockers: &[i32], window: Window, width: usize, height: usize)
    requires { Paints window (length walk.old) × (width ≤ 1024) × (height ≤ 1024) }
    ensures { entries walk.new ≡ blockers_painted window width height blockers.now (length blockers.now / 4) (entries walk.old) }
{
    for k in 0..blockers.len() / 4 {
        paint_blocker(walk, blockers, k, window, width, height);
    }
}
