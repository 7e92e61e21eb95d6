// The seven buffers that a field call is lent.
ghost use Rattle.plan.specs.Plans.{Lengths};
ghost use Rattle.field.specs.Buffers.{lent_of};

use plan::Lent;

// Lanes, walk bytes, flags, row intervals, and the three version buffers.
#[derive(Drop)]
pub struct Buffers<'a> {
    pub lanes: &'a mut [i16],
    pub walk: &'a mut [u8],
    pub flags: &'a mut [u8],
    pub rows: &'a mut [u16],
    pub versions: &'a mut [u32],
    pub pulled_down: &'a mut [u32],
    pub pulled_up: &'a mut [u32],
}

impl Buffers<'_> {
    // How long each is.
    pub fn lengths(&self) -> Lent
        ensures { Lengths result (lent_of self.now) }
    {
        Lent {
            lanes: self.lanes.len(),
            walk: self.walk.len(),
            flags: self.flags.len(),
            rows: self.rows.len(),
            versions: self.versions.len(),
            pulled_down: self.pulled_down.len(),
            pulled_up: self.pulled_up.len(),
        }
    }
}
