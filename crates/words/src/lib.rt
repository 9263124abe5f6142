// A word of a graph, of the work area or of flags: of 16 bits in edition 1, of 32 in edition 2. What an edition has of its own hangs on the type of its words; the
// crates above are written once, over any `Word`, and see words as the numbers that they are. `as` stands where Rust has no `From` (`u32` to `usize`), or a `TryFrom`
// alone, whose error the `requires` of `of` rules out; the check refuses an `as` that may lose bits.
#![tactic(auto)]

ghost use Rattle.std.specs.Prelude.{◌≡◌, ◌<◌, List, ℕ, length, get_or, set, replicate, map, bit_or};
ghost use Rattle.theory.specs.Accepted.{Edition, edition1, edition2};
ghost use Rattle.words.specs.Words.{Limits, Holds, numbers_same, limits1, limits2, holds1, holds2, TakesTwoBytes};
ghost use Rattle.std.proofs.Common.{arith};

pub trait Word: Copy {
    // The number that a word is, which is below `limit`, and those of a list of words.
    ghost number: { Self → ℕ };

    ghost numbers: { List Self → List ℕ };

    ghost limit: { ℕ };

    ghost edition: { Edition };

    ghost NUMBER: { ℕ };

    ghost COUNTS: { ℕ };

    ghost LINKS: { ℕ };

    ghost ENTRIES: { ℕ };

    // The edition's number, and the limits of refusals 2 and 9.
    const NUMBER: usize;

    const COUNTS: usize;

    const LINKS: usize;

    const ENTRIES: usize;

    fn read(self) -> usize
        ensures { (result ≡ number self) × (result < limit) };

    fn of(x: usize) -> Self
        requires { x < limit }
        ensures { number result ≡ x };

    // The bits of both.
    fn or(self, other: Self) -> Self
        ensures { number result ≡ bit_or (number self) (number other) };

    ghost each: { (words : List Self) → numbers words ≡ map number words };

    ghost limits: { Limits edition NUMBER COUNTS LINKS ENTRIES };

    ghost holds: { Holds edition limit };

    ghost wide: { TakesTwoBytes Self.row };
}

impl Word for u16 {
    ghost number = { λ word. word };

    ghost numbers = { λ words. words };

    ghost limit = { 65536 };

    ghost edition = { edition1 };

    ghost NUMBER = { 1 };

    ghost COUNTS = { 1024 };

    ghost LINKS = { 4096 };

    ghost ENTRIES = { 4096 };

    ghost each = { numbers_same };

    ghost limits = { limits1 };

    ghost holds = { holds1 };

    ghost wide = { omega arith };

    const NUMBER: usize = 1;

    const COUNTS: usize = 1024;

    const LINKS: usize = 4096;

    const ENTRIES: usize = 4096;

    fn read(self) -> usize {
        usize::from(self)
    }

    fn of(x: usize) -> u16 {
        x as u16
    }

    fn or(self, other: u16) -> u16 {
        self | other
    }
}

impl Word for u32 {
    ghost number = { λ word. word };

    ghost numbers = { λ words. words };

    ghost limit = { 4294967296 };

    ghost edition = { edition2 };

    ghost NUMBER = { 2 };

    ghost COUNTS = { 262144 };

    ghost LINKS = { 1048576 };

    ghost ENTRIES = { 1048576 };

    ghost each = { numbers_same };

    ghost limits = { limits2 };

    ghost holds = { holds2 };

    ghost wide = { omega arith };

    const NUMBER: usize = 2;

    const COUNTS: usize = 262144;

    const LINKS: usize = 1048576;

    const ENTRIES: usize = 1048576;

    fn read(self) -> usize {
        self as usize
    }

    fn of(x: usize) -> u32 {
        x as u32
    }

    fn or(self, other: u32) -> u32 {
        self | other
    }
}

// A flag that is set, in a word of its own: that of a cyclic atom, and what crate mask packs. A word of lent memory, so no bool.
pub const SET: usize = 1;

// The word at i.
pub fn at<W: Word>(words: &[W], i: usize) -> usize
    requires { i < length (W.numbers words.now) }
    ensures { (result ≡ get_or (W.numbers words.now) i 0) × (result < W.limit) }
{
    words[i].read()
}

pub fn put<W: Word>(words: &mut [W], i: usize, x: usize)
    requires { (i < length (W.numbers words.old)) × (x < W.limit) }
    ensures { W.numbers words.new ≡ set (W.numbers words.old) i x }
{
    words[i] = W::of(x);
}

// Every word is x. (std's `fill` asks that `clone` can't fail, and `Copy` alone does not say so; after a loop over `iter_mut` a proof knows the length alone.)
pub fn fill<W: Word>(words: &mut [W], x: W)
    ensures { W.numbers words.new ≡ replicate (length (W.numbers words.old)) (W.number x) }
{
    for i in 0..words.len() {
        words[i] = x;
    }
}
