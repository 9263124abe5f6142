// Standard input as words: how many of its bytes are the graph, and words from bytes, low byte first.
#![tactic(auto)]

ghost use Rattle.std.specs.Prelude.{◌≡◌, ℕ, ◌+◌, ◌*◌, ◌/◌, ◌<◌, ◌≤◌, min, length, get_or};
ghost use Rattle.std.proofs.Common.{lit<, lit≤};
ghost use Rattle.input.specs.Bytes.{little_endian, words as Bytes·words, Decoded};
ghost use Rattle.input.specs.Input.{graph_size};

// A word of the graph or of a mask: a number in K bytes, low byte first.
pub trait LittleEndian<const K: usize>: Copy {
    // The word of a number that K bytes hold.
    ghost of: { ℕ → Self };

    ghost width: { (0 < K) × (K ≤ 8) };

    fn from_le(bytes: &[u8; K]) -> Self
        ensures { result ≡ of (little_endian bytes.now 0 K) };
}

// An impl for each type, and not one: `from_le_bytes` is a function of each type and a method of no trait.
impl LittleEndian<2> for u16 {
    ghost of = { λ n. n };

    ghost width = { (lit< tt, lit≤ tt) };

    #[tactic(auto, unfolding(crate::specs::Bytes::little_endian))]
    fn from_le(bytes: &[u8; 2]) -> u16 {
        u16::from_le_bytes(*bytes)
    }
}

impl LittleEndian<8> for u64 {
    ghost of = { λ n. n };

    ghost width = { (lit< tt, lit≤ tt) };

    #[tactic(auto, unfolding(crate::specs::Bytes::little_endian))]
    fn from_le(bytes: &[u8; 8]) -> u64 {
        u64::from_le_bytes(*bytes)
    }
}

// The words of all the bytes, in lent memory (no heap), and how many they are. What is left of the bytes at the end is dropped.
#[tactic(auto, unfolding(crate::specs::Bytes::tabulate))]
pub fn words<W: LittleEndian<K>, const K: usize>(bytes: &[u8], words: &mut [W]) -> usize
    requires { length bytes.now / K ≤ length words.old }
    ensures { Decoded W.of K bytes.now words.new result }
{
    let (whole, _) = bytes.as_chunks::<K>();
    // A `zip` with `words.iter_mut()` doesn't prove: nothing is known afterwards of what is written through it.
    for (i, bytes) in whole.iter().enumerate() {
        words[i] = W::from_le(bytes);
    }
    whole.len()
}

// Word i of the header.
fn header(bytes: &[u8], i: usize) -> usize
    requires { 2 * i + 2 ≤ length bytes.now }
    ensures { (result ≡ get_or (Bytes·words 2 bytes.now) i 0) × (result < 65536) }
{
    usize::from(u16::from_le_bytes([bytes[2 * i], bytes[2 * i + 1]]))
}

// How many bytes the graph has: as the header sizes it, or all there are, and no more than the largest graph.
#[tactic(auto, unfolding(crate::specs::Input::graph_size))]
pub fn graph_bytes(input: &[u8]) -> usize
    ensures { result ≡ min (length input.now) (min (graph_size input.now) 26634) }
{
    if input.len() < 10 {
        return input.len();
    }
    let size = 5 + 3 * header(input, 2) + 2 * header(input, 3) + 2 * header(input, 4);
    input.len().min((2 * size).min(26634))
}
