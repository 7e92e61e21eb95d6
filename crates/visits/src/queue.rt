// The queue of the search.
ghost use Rattle.std.specs.Prelude.{◌≡◌, ◌+◌, ◌<◌, length, set};

// The cells that are labelled, by their points, in the order in which they were: the first `len` entries of a lent slice.
#[derive(Drop)]
pub struct Queue<'a> {
    pub points: &'a mut [u32],
    pub len: usize,
}

impl<'a> Queue<'a> {
    // Puts a point at the end.
    pub fn push(&mut self, point: u32)
        requires { self.old.len < length self.old.points.now }
        ensures lent { self.new.points.ghost_name ≡ self.old.points.ghost_name }
        ensures points { self.new.points.now ≡ set self.old.points.now self.old.len point }
        ensures len { self.new.len ≡ self.old.len + 1 }
    {
        self.points[self.len] = point;
        self.len += 1;
    }
}
