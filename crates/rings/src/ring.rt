// The body and the ring box of a resource; the box around all ring boxes.
ghost use Rattle.std.specs.Prelude.{◌≡◌, not, ◌+◌, ◌*◌, ◌-◌, ◌/◌, ◌≤◌, length};
ghost use Rattle.walkgraph.specs.Painting.{rectangle};
ghost use Rattle.walkgraph.specs.Window.{sources};
ghost use Rattle.walkgraph.specs.Refusals.{bad_side, first_bad_resource};
ghost use Rattle.cells.specs.Boxes.{box_of};
ghost use Rattle.fournumbers.specs.Corners.{corners_of};
ghost use Rattle.rings.specs.Rings.{RingOf, around, AllRings};

use cells::boxes::{CellBox, Ring};
use cells::edge;
use fournumbers;
use fournumbers::Corners;
use ringends;

// Whether a span of pixels is one of a resource, along an axis of size cells.
#[tactic(auto, unfolding(walkgraph::specs::Refusals::bad_side))]
fn spans(low: i32, high: i32, size: usize) -> bool
    requires { size ≤ 1024 }
    ensures { result ≡ not (bad_side size low high) }
{
    0 <= low && low < high && high as usize <= 8 * size
}

// The ring of a rectangle of pixels, if it is accepted as a resource.
#[tactic(auto, using(crate::proofs::Sides::side), unfolding(crate::specs::Rings::RingOf, walkgraph::specs::Refusals::bad_resource, walkgraph::specs::Ring::ring_box, walkgraph::specs::Ring::body))]
pub fn ring_of(rectangle: Corners, width: usize, height: usize) -> Option<Ring>
    requires { (width ≤ 1024) × (height ≤ 1024) }
    ensures { RingOf width height (corners_of rectangle) result }
{
    if !spans(rectangle.left, rectangle.right, width) {
        return None;
    }
    if !spans(rectangle.top, rectangle.bottom, height) {
        return None;
    }
    let body = CellBox {
        left: edge::cell_of(rectangle.left as usize),
        top: edge::cell_of(rectangle.top as usize),
        right: edge::cell_of(rectangle.right as usize - 1),
        bottom: edge::cell_of(rectangle.bottom as usize - 1),
    };
    let ring = CellBox {
        left: body.left.saturating_sub(1),
        top: body.top.saturating_sub(1),
        right: ringends::after(body.right, width),
        bottom: ringends::after(body.bottom, height),
    };
    Some(Ring { ring, body })
}

// The ring of resource k.
pub fn ring_at(resources: &[i32], k: usize, width: usize, height: usize) -> Option<Ring>
    requires { (width ≤ 1024) × (height ≤ 1024) × (4 * k + 4 ≤ length resources.now) }
    ensures { RingOf width height (rectangle resources.now k) result }
{
    ring_of(fournumbers::corners_at(resources, k), width, height)
}

// The number of resources before the first refused one.
pub fn accepted(resources: &[i32], width: usize, height: usize) -> usize
    requires { (width ≤ 1024) × (height ≤ 1024) }
    ensures { result ≡ first_bad_resource width height resources.now }
{
    let count = resources.len() / 4;
    for k in 0..count {
        if ring_at(resources, k, width, height).is_none() {
            return k;
        }
    }
    count
}

// The box around a box and the ring box, if there is one.
#[tactic(auto, unfolding(crate::specs::Rings::around, walkgraph::specs::Window::hull))]
fn around(boxed: CellBox, ring: Option<Ring>) -> CellBox
    ensures { box_of result ≡ around (box_of boxed) ring }
{
    let Some(
        Ring {
            ring: other,
            body: _,
        },
    ) = ring
    else {
        return boxed;
    };
    CellBox {
        left: boxed.left.min(other.left),
        top: boxed.top.min(other.top),
        right: boxed.right.max(other.right),
        bottom: boxed.bottom.max(other.bottom),
    }
}

// The box of the sources: around all ring boxes.
pub fn sources(resources: &[i32], width: usize, height: usize) -> CellBox
    requires { AllRings width height resources.now }
    ensures { box_of result ≡ sources width height resources.now (length resources.now / 4 - 1) }
{
    let mut boxed = CellBox {
        left: width,
        top: height,
        right: 0,
        bottom: 0,
    };
    for k in 0..resources.len() / 4 {
        boxed = around(boxed, ring_at(resources, k, width, height));
    }
    boxed
}
