// The buffers of a window that go by its rows: the row intervals and the versions.
#![tactic(auto)]

ghost use Rattle.std.specs.Prelude.{◌≡◌, ◌&&◌, ◌+◌, ◌*◌, ◌≤◌, leb};

// Whether they are as long as a window of height rows needs.
pub fn enough(
    height: usize,
    rows: usize,
    versions: usize,
    pulled_down: usize,
    pulled_up: usize,
) -> bool
    requires { height ≤ 1024 }
    ensures { result ≡ (leb (2 * height) rows && leb (height + 2) versions && leb (height + 2) pulled_down && leb (height + 2) pulled_up) }
{
    2 * height <= rows
        && height + 2 <= versions
        && height + 2 <= pulled_down
        && height + 2 <= pulled_up
}
