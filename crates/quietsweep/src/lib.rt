// How the sweeps run: which way each goes, and when they end.
#![tactic(auto)]

ghost use Rattle.std.specs.Prelude.{◌≡◌, false, cond, ◌%◌, leb, eqb};

// Whether the sweep of this number, from 0, goes down: the even ones do.
pub fn down(number: usize) -> bool
    ensures { result ≡ eqb (number % 2) 0 }
{
    number % 2 == 0
}

// Whether the run ends with sweep number count: a quiet one after the first.
pub fn ends(changed: bool, count: usize) -> bool
    ensures { result ≡ cond changed false (leb 2 count) }
{
    !changed && 2 <= count
}
