// Masks: a set of numbers in 64-bit words, bit i % 64 of word i / 64, lowest first, for i.
#![tactic(auto)]

ghost use Rattle.std.specs.Prelude.{◌≡◌, ◌+◌, ◌*◌, ◌<◌, ◌≤◌, length};
ghost use Rattle.theory.specs.Words.{bit_at};
ghost use Rattle.mask.specs.Mask.{words_of, bits, pack, with_bit, flagged};

use words::{SET, Word, at};

// The length of a mask over n numbers: ⌈n / 64⌉.
pub fn words(n: usize) -> usize
    ensures { result ≡ words_of n }
{
    n.div_ceil(64)
}

// Bit i; past the end of the mask it is not set.
pub fn bit(mask: &[u64], i: usize) -> bool
    ensures { result ≡ bit_at mask.now i }
{
    let w = i / 64;
    if mask.len() <= w {
        return false;
    }
    (mask[w] >> (i % 64)) % 2 == 1
}

// Sets bit i, which the mask has.
pub fn set_bit(mask: &mut [u64], i: usize)
    requires { i < 64 * length mask.old }
    ensures { mask.new ≡ with_bit i mask.old }
{
    mask[i / 64] |= 1u64 << (i % 64);
}

// Word w of the mask of the flags, from the highest flag down: each `<< 1` makes room for one flag (std has nothing that packs flags into a word).
pub fn flag_word<W: Word>(flags: &[W], w: usize) -> u64
    requires { 64 * w ≤ length (W.numbers flags.now) }
    ensures { result ≡ bits (flagged (W.numbers flags.now)) (64 * w) 64 }
{
    let from = 64 * w;
    let end = from + (flags.len() - from).min(64);
    let mut word: u64 = 0;
    for i in (from..end).rev() {
        word = (word << 1) | u64::from(at(flags, i) == SET);
    }
    word
}

// Writes the set that the flags stand for, one flag a number. (By index: after a loop over `iter_mut` a proof knows the length alone.)
pub fn pack_flags<W: Word>(flags: &[W], mask: &mut [u64])
    requires { length mask.old ≡ words_of (length (W.numbers flags.now)) }
    ensures { mask.new ≡ pack (length (W.numbers flags.now)) (flagged (W.numbers flags.now)) }
{
    for w in 0..mask.len() {
        mask[w] = flag_word(flags, w);
    }
}
