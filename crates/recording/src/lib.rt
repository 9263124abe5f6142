// The words of a recording, 16 bits each, low byte first, read from a source, as standard input is, through a block.
#![tactic(auto)]

ghost use Rattle.std.specs.Prelude.{◌≡◌, ℕ, ◌+◌, ◌*◌, ◌/◌, ◌≤◌, ◌++◌, Some, Ok, Err, IfOk, OnOk, length, codes, decimal, ⊤};

use arrayvec::ArrayVec;
use std::alloc::AllocError;
use std::error::Error;
use std::fmt;
use std::io::Read;

/// The recording is malformed at this word, counted from 0.
#[derive(Clone, Copy, Debug, PartialEq, Eq, Hash)]
pub struct Malformed {
    pub word: u64,
}

impl fmt::Display for Malformed {
    ghost output = { λ m. Some (codes "malformed recording at word " ++ decimal m.word) };

    fn fmt<W: fmt::Write>(&self, f: &mut fmt::Formatter<W>) -> fmt::Result {
        let word = self.word;
        write!(f, "malformed recording at word {word}")
    }
}

impl Error for Malformed {}

/// Reads a recording. Once it is found malformed, `state` says where, and nothing more is read, also where a caller goes on. (The block is the reader's own: std's BufReader takes its block from the heap, and there is none.)
#[derive(Drop)]
pub struct Reader<R> {
    source: R,
    block: [u8; 65536],
    // where the next word stands in the block, and how many bytes are left from there
    at: usize,
    pub left: usize,
    // how many words are read
    pub words: u64,
    pub state: Result<(), Malformed>,
    ghost within: { at + left ≤ 65536 },
}

// A copy of the reader of a source that is copied, as `&[u8]`.
impl<R: Copy> Copy for Reader<R> {}

impl<R: Copy> Clone for Reader<R> {
    ghost is_clone = { λ r s. s ≡ r };

    ghost is_infallible = { λ _. ⊤ };

    fn clone(&self) -> Result<Reader<R>, AllocError> {
        Ok(*self)
    }
}

// Reads until `bytes` is full, the source ends or a read fails, and returns how many bytes it put at the start. (`read_exact` does not say how many. How often
// the source must be asked is not known before, so this is no loop over a range or an iterator.)
fn read_full<R: Read>(source: &mut R, bytes: &mut [u8]) -> usize
    ensures { result ≤ length bytes.new }
{
    let mut done: usize = 0;
    while done < bytes.len() {
        match source.read(&mut bytes[done..]) {
            Ok(0) => return done,
            Ok(n) => done += n,
            Err(_) => return done,
        }
    }
    done
}

// Four words, low first. (std makes a number of bytes alone: each word would be taken apart for it.)
fn wide(a: u16, b: u16, c: u16, d: u16) -> u64
    ensures { result ≡ a + 65536 * b + 4294967296 * c + 281474976710656 * d }
{
    u64::from(a) + (u64::from(b) << 16) + (u64::from(c) << 32) + (u64::from(d) << 48)
}

// Keeps, Tells and Counts are facts of a change, from the reader before a call to the one after it, and of the answer. A ghost field and a method speak of one
// reader, so each function that reads names them, here and in the crates above.
impl<R: Read> Reader<R> {
    ghost use Rattle.arrayvec.specs.ArrayVec.{array_vec_len};
    ghost use Rattle.recording.specs.Reading.{word_at, Keeps, Tells, Counts};

    pub fn new(source: R) -> Self
        ensures words { result.words ≡ 0 }
        ensures state { result.state ≡ Ok tt }
    {
        Reader {
            source,
            block: [0; 65536],
            at: 0,
            left: 0,
            words: 0,
            state: Ok(()),
        }
    }

    fn fail(&mut self, word: u64) -> Malformed
        ensures word { result.word ≡ word }
        ensures state { self.new.state ≡ Err result }
    {
        let malformed = Malformed { word };
        self.state = Err(malformed);
        malformed
    }

    /// The last word is none that the format has there.
    pub fn wrong(&mut self) -> Malformed
        ensures kept { Keeps {T = ⊤} self.old self.new (Err result) }
        ensures told { self.new.state ≡ Err result }
    {
        if let Err(malformed) = self.state {
            return malformed;
        }
        self.fail(self.words.saturating_sub(1))
    }

    // A new block, where the last one is used up.
    fn refill(&mut self)
        ensures { self.new.words ≡ self.old.words }
    {
        if self.left == 0 {
            self.at = 0;
            self.left = read_full(&mut self.source, &mut self.block);
        }
    }

    // The word at the reader's place in the block; an odd last byte is none.
    fn take(&mut self) -> Result<u16, Malformed>
        ensures word { IfOk result (λ word. word ≡ word_at self.old.block self.old.at) }
        ensures told { Tells self.new result }
        ensures count { Counts 1 self.old self.new result }
    {
        if self.left < 2 {
            return Err(self.fail(self.words));
        }
        let word = u16::from_le_bytes([self.block[self.at], self.block[self.at + 1]]);
        self.left -= 2;
        self.at += 2;
        self.words = self.words.saturating_add(1);
        Ok(word)
    }

    pub fn next(&mut self) -> Result<u16, Malformed>
        ensures kept { Keeps self.old self.new result }
        ensures told { Tells self.new result }
        ensures count { Counts 1 self.old self.new result }
    {
        self.state?;
        self.refill();
        self.take()
    }

    /// A word that the format sets.
    pub fn expect(&mut self, word: u16) -> Result<u16, Malformed>
        ensures kept { Keeps self.old self.new result }
        ensures told { Tells self.new result }
        ensures count { Counts 1 self.old self.new result }
        ensures word { IfOk result (λ got. got ≡ word) }
    {
        let got = self.next()?;
        if got == word {
            Ok(got)
        } else {
            Err(self.wrong())
        }
    }

    /// The recording ends here.
    pub fn expect_end(&mut self) -> Result<(), Malformed>
        ensures kept { Keeps self.old self.new result }
        ensures told { Tells self.new result }
        ensures count { OnOk result (self.new.words ≡ self.old.words) }
        ensures end { OnOk result (self.new.left ≡ 0) }
    {
        self.state?;
        self.refill();
        if 0 < self.left {
            return Err(self.fail(self.words));
        }
        Ok(())
    }

    /// Past the next n words.
    pub fn skip(&mut self, n: usize) -> Result<(), Malformed>
        ensures kept { Keeps self.old self.new result }
        ensures told { Tells self.new result }
        ensures count { Counts n self.old self.new result }
    {
        self.state?;
        for _ in 0..n {
            self.next()?;
        }
        Ok(())
    }

    /// Fills `items`.
    pub fn fill<T: Recorded>(&mut self, items: &mut [T]) -> Result<(), Malformed>
        ensures kept { Keeps self.old self.new result }
        ensures told { Tells self.new result }
        ensures count { Counts (length items.old * T.words) self.old self.new result }
    {
        self.state?;
        for item in items {
            *item = T::next(self)?;
        }
        Ok(())
    }

    /// Fills `bytes`, two to a word; what stands beside an odd last one is passed over.
    pub fn fill_bytes(&mut self, bytes: &mut [u8]) -> Result<(), Malformed>
        ensures kept { Keeps self.old self.new result }
        ensures told { Tells self.new result }
        ensures count { Counts ((length bytes.old + 1) / 2) self.old self.new result }
    {
        self.state?;
        for k in 0..bytes.len().div_ceil(2) {
            let word = self.next()?.to_le_bytes();
            for (byte, of_word) in bytes[2 * k..].iter_mut().zip(word) {
                *byte = of_word;
            }
        }
        Ok(())
    }

    /// The next n items.
    pub fn list<T: Recorded, const MOST: usize>(
        &mut self,
        n: usize,
    ) -> Result<ArrayVec<T, MOST>, Malformed>
        requires { n ≤ MOST }
        ensures kept { Keeps self.old self.new result }
        ensures told { Tells self.new result }
        ensures count { Counts (n * T.words) self.old self.new result }
        ensures len { IfOk result (λ list. array_vec_len list ≡ n) }
    {
        self.state?;
        let mut list = ArrayVec::new();
        for _ in 0..n {
            list.push(T::next(self)?);
        }
        Ok(list)
    }

    /// The next n bytes, as `fill_bytes` has them.
    pub fn bytes<const MOST: usize>(&mut self, n: usize) -> Result<ArrayVec<u8, MOST>, Malformed>
        requires { n ≤ MOST }
        ensures kept { Keeps self.old self.new result }
        ensures told { Tells self.new result }
        ensures count { Counts ((n + 1) / 2) self.old self.new result }
        ensures len { IfOk result (λ bytes. array_vec_len bytes ≡ n) }
    {
        self.state?;
        let mut bytes = ArrayVec::new();
        for _ in 0..n / 2 {
            let [low, high] = self.next()?.to_le_bytes();
            bytes.push(low);
            bytes.push(high);
        }
        if n % 2 == 1 {
            let [low, _beside] = self.next()?.to_le_bytes();
            bytes.push(low);
        }
        Ok(bytes)
    }
}

/// What a list of the recording is of.
pub trait Recorded: Default + Copy {
    ghost use Rattle.recording.specs.Reading.{Keeps, Tells, Counts};

    // how many words stand for it
    ghost words: { ℕ };

    fn next<R: Read>(reader: &mut Reader<R>) -> Result<Self, Malformed>
        ensures kept { Keeps reader.old reader.new result }
        ensures told { Tells reader.new result }
        ensures count { Counts words reader.old reader.new result };
}

impl Recorded for u16 {
    ghost use Rattle.recording.specs.Reading.{Keeps, Tells, Counts};

    ghost words = { 1 };

    fn next<R: Read>(reader: &mut Reader<R>) -> Result<u16, Malformed>
        ensures kept { Keeps reader.old reader.new result }
        ensures told { Tells reader.new result }
        ensures count { Counts 1 reader.old reader.new result }
    {
        reader.next()
    }
}

impl Recorded for u64 {
    ghost use Rattle.recording.specs.Reading.{Keeps, Tells, Counts};

    ghost words = { 4 };

    // Four words, low first.
    fn next<R: Read>(reader: &mut Reader<R>) -> Result<u64, Malformed>
        ensures kept { Keeps reader.old reader.new result }
        ensures told { Tells reader.new result }
        ensures count { Counts 4 reader.old reader.new result }
    {
        let a = reader.next()?;
        let b = reader.next()?;
        let c = reader.next()?;
        let d = reader.next()?;
        Ok(wide(a, b, c, d))
    }
}
