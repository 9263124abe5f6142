// A search for the first place where a test holds.
ghost use Rattle.std.specs.Prelude.{Bool, ℕ, ◌≤◌, ◌<◌};
ghost use Rattle.refusals.specs.Search.{Tells, Finds};

// The first of the places from `from` to before `end`, or none.
pub fn first<F: Fn(usize) -> bool>(from: usize, end: usize, test: F) -> Option<usize>
    requires ordered { from ≤ end }
    requires callable { (i : ℕ) → from ≤ i → i < end → F.pre test i }
    ensures { (bad : ℕ → Bool) → Tells (F.post test) from end bad → Finds bad from end result }
{
    (from..end).find(
        |i|
            requires { F.pre test i.now }
        { test(*i) },
    )
}
