// Joining two classes by the ranks of their roots.
#![tactic(auto)]

ghost use Rattle.std.specs.Prelude.{◌≡◌, ◌≤◌};
ghost use Rattle.byrank.specs.Ranks.{lower_root, raised_rank};

// Of two roots with their ranks the one that is put under the other.
#[tactic(auto, unfolding(crate::specs::Ranks::lower_root))]
pub fn lower(left: usize, right: usize, rank: u8, other: u8) -> usize
    ensures { result ≡ lower_root left right rank other }
{
    if rank < other { left } else { right }
}

// The rank of a root after another root, of rank low, is put under it.
#[tactic(auto, unfolding(crate::specs::Ranks::raised_rank))]
pub fn raised(low: u8, high: u8) -> u8
    requires { high ≤ 9 }
    ensures { result ≡ raised_rank low high }
{
    if low == high { high + 1 } else { high }
}
