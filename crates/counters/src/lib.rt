// Checked counts in lent words. Where the Rust panics, the callers show that a count stays below a word's limit.
#![tactic(auto)]

ghost use Rattle.std.specs.Prelude.{◌≡◌, ◌+◌, ◌<◌, length, get_or, set};

use words::Word;

// The count before.
pub fn add<W: Word>(counts: &mut [W], i: usize, amount: usize) -> usize
    requires { (i < length (W.numbers counts.old)) × (get_or (W.numbers counts.old) i 0 + amount < W.limit) }
    ensures { (result ≡ get_or (W.numbers counts.old) i 0) × (W.numbers counts.new ≡ set (W.numbers counts.old) i (result + amount)) }
{
    let n = words::at(counts, i);
    words::put(counts, i, n + amount);
    n
}
