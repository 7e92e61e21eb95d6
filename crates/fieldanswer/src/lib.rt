// What the field call answers where it is accepted.
#![tactic(auto)]

use window::record::Window;

// The window record and the sweep count.
#[derive(Clone, Copy)]
pub struct Made {
    pub window: Window,
    pub sweeps: usize,
}
