// The program's lines, put together in a list and written into lent memory.
#![tactic(auto)]

ghost use Rattle.std.specs.Prelude.{◌≡◌, [], ◌∷◌, ◌++◌, ◌+◌, ◌<◌, ◌≤◌, length};
ghost use Rattle.arrayvec.specs.ArrayVec.{array_vec_len};
ghost use Rattle.theory.specs.Sets.{members};
ghost use Rattle.theory.specs.Words.{bit_at};
ghost use Rattle.text.specs.Text.{decimal, line, refused_line, loops_line, missing_line, Appended};

use arrayvec::ArrayVec;

// A text has the room of its longest: 20 bytes for a refusal, and 5,144 for `loops yes` and `missing` with 1,024 atoms.
fn put<const ROOM: usize>(text: &mut ArrayVec<u8, ROOM>, bytes: &[u8])
    requires { array_vec_len text.old + length bytes.now ≤ ROOM }
    ensures { text.new.items ≡ text.old.items ++ bytes.now }
{
    text.try_extend_from_slice(bytes).unwrap();
}

// A space, and the number in decimal. Here, in `put_line`, `put_refusal` and `put_lines` the bytes are put one after the other, and no `Display` prints them:
// the words are fixed byte strings, and `write!(text, " {n}")` doesn't prove, since its contract doesn't say that it succeeds where there is room.
fn put_number<const ROOM: usize>(text: &mut ArrayVec<u8, ROOM>, n: usize)
    requires { array_vec_len text.old + (1 + length (decimal n)) ≤ ROOM }
    ensures { text.new.items ≡ text.old.items ++ 32 ∷ decimal n }
{
    put(text, b" ");
    put(text, itoa::Buffer::new().format(n).as_bytes());
}

// A word, the numbers after it, and the line's end.
#[tactic(auto, unfolding(crate::specs::Text::spaced))]
fn put_line<const ROOM: usize>(text: &mut ArrayVec<u8, ROOM>, word: &[u8], numbers: &[usize])
    requires { array_vec_len text.old + length (line word.now numbers.now) ≤ ROOM }
    ensures { text.new.items ≡ text.old.items ++ line word.now numbers.now }
{
    put(text, word);
    for &n in numbers {
        put_number(text, n);
    }
    put(text, b"\n");
}

// The text at the front of lent memory, and where it ends. `put_refusal` and `put_lines` fill what a caller lends, as there is no heap, and promise that all behind the text stays
// as it was: `Appended` is that promise in one word, and a list that they return would not have it.
fn write(out: &mut [u8], text: &[u8]) -> usize
    requires { length text.now ≤ length out.old }
    ensures { Appended out.old 0 text.now out.new result }
{
    out[..text.len()].copy_from_slice(text);
    text.len()
}

// `refused`, the number and the place. They are numbers here, since that is how they are printed.
#[tactic(auto, using(crate::proofs::TextLaws::refused_few))]
pub fn put_refusal(out: &mut [u8], number: usize, place: usize) -> usize
    requires { (number < 65536) × (place < 65536) × (20 ≤ length out.old) }
    ensures { Appended out.old 0 (refused_line number place) out.new result }
{
    let mut text: ArrayVec<u8, 20> = ArrayVec::new();
    put_line(&mut text, b"refused", &[number, place]);
    write(out, &text)
}

// The numbers below n whose bits are set, ascending, and before them how many they are. (The list is lent: one that is answered is moved.)
#[tactic(auto, using(crate::proofs::TextLaws::members_few, crate::proofs::TextLaws::members_none, crate::proofs::TextLaws::members_with, crate::proofs::TextLaws::members_without))]
fn counted(numbers: &mut ArrayVec<usize, 1025>, mask: &[u64], n: usize)
    requires { (numbers.old.items ≡ []) × (n ≤ 1024) }
    ensures { numbers.new.items ≡ length (members n (bit_at mask.now)) ∷ members n (bit_at mask.now) }
{
    for i in 0..n {
        if mask::bit(mask, i) {
            numbers.push(i);
        }
    }
    numbers.insert(0, numbers.len());
}

// Both lines: whether there is a loop, and `missing` with the count and the atoms.
#[tactic(auto, using(crate::proofs::TextLaws::loops_few, crate::proofs::TextLaws::missing_few))]
pub fn put_lines(out: &mut [u8], cycle: bool, mask: &[u64], atoms: usize) -> usize
    requires { (atoms ≤ 1024) × (5144 ≤ length out.old) }
    ensures { Appended out.old 0 (loops_line cycle ++ missing_line (members atoms (bit_at mask.now))) out.new result }
{
    let mut text: ArrayVec<u8, 5144> = ArrayVec::new();
    let answer: &[u8] = if cycle { b"loops yes\n" } else { b"loops no\n" };
    put(&mut text, answer);
    let mut numbers = ArrayVec::new();
    counted(&mut numbers, mask, atoms);
    put_line(&mut text, b"missing", &numbers);
    write(out, &text)
}
