// The version that a row last pulled from the row that feeds it.
#![tactic(auto)]

ghost use Rattle.std.specs.Prelude.{◌<◌, length};
ghost use Rattle.pulls.specs.Pulls.{Pulls};

// Whether row own is skipped: it last pulled this version. Else it now remembers it.
pub fn skips(pulled: &mut [u32], own: usize, version: u32) -> bool
    requires { own < length pulled.old }
    ensures { Pulls version own pulled.old pulled.new result }
{
    if pulled[own] == version {
        return true;
    }
    pulled[own] = version;
    false
}
