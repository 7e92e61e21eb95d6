// A text that is not in the form.
ghost use Rattle.std.specs.Prelude.{◌≡◌, ◌+◌, ◌<◌, ◌^◌};

// So many lines stand before the first one that breaks the form.
#[derive(Clone, Copy, Debug, PartialEq, Eq)]
pub struct Broken {
    pub passed: usize,
}

impl Broken {
    // So many lines more stand before it.
    pub fn after(self, lines: usize) -> Broken
        requires { self.passed + lines < 2 ^ 64 }
        ensures { result.passed ≡ self.passed + lines }
    {
        Broken {
            passed: self.passed + lines,
        }
    }

    // The line that breaks the form, from 1.
    pub fn line(self) -> u32
        requires { self.passed + 1 < 2 ^ 32 }
        ensures { result ≡ self.passed + 1 }
    {
        self.passed as u32 + 1
    }
}
