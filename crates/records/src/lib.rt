// What is recorded of a call or of a run of the program (crates/replay/README.md has the format), read into values.
#![tactic(auto)]

ghost use Rattle.std.specs.Prelude.{◌≡◌, ◌==◌, ◌≤◌, ◌++◌, if◌then◌else◌, Some, IfOk, codes, decimal, length};
ghost use Rattle.arrayvec.specs.ArrayVec.{array_vec_len};
ghost use Rattle.recording.specs.Reading.{Keeps, Tells};

use arrayvec::ArrayVec;
use recording::{Malformed, Reader};
use std::error::Error;
use std::fmt;
use std::io::Read;

/// What a record is of.
#[derive(Clone, Copy, Debug, PartialEq, Eq, Hash)]
pub enum Kind {
    Graph,
    Run,
}

/// A call on a graph.
#[derive(Clone, Copy, Debug, PartialEq, Eq, Hash)]
pub enum Call {
    Check,
    Needed,
    Prepare,
    Complete,
}

/// A word that names no kind, or no call.
#[derive(Clone, Copy, Debug, PartialEq, Eq, Hash)]
pub struct Unknown {
    pub word: u16,
}

impl fmt::Display for Unknown {
    ghost output = { λ u. Some (codes "the format has no word " ++ decimal u.word ++ codes " there") };

    fn fmt<W: fmt::Write>(&self, f: &mut fmt::Formatter<W>) -> fmt::Result {
        let word = self.word;
        write!(f, "the format has no word {word} there")
    }
}

impl Error for Unknown {}

impl TryFrom<u16> for Kind {
    type Error = Unknown;

    ghost use Rattle.records.specs.Words.{kind_of};

    ghost try_from_gives = { λ word kind. kind ≡ kind_of word };

    fn try_from(word: u16) -> Result<Kind, Unknown> {
        match word {
            1 => Ok(Kind::Graph),
            2 => Ok(Kind::Run),
            _ => Err(Unknown { word }),
        }
    }
}

impl TryFrom<u16> for Call {
    type Error = Unknown;

    ghost use Rattle.records.specs.Words.{call_of};

    ghost try_from_gives = { λ word call. call ≡ call_of word };

    fn try_from(word: u16) -> Result<Call, Unknown> {
        match word {
            1 => Ok(Call::Check),
            2 => Ok(Call::Needed),
            3 => Ok(Call::Prepare),
            4 => Ok(Call::Complete),
            _ => Err(Unknown { word }),
        }
    }
}

/// A mask or an output.
pub type Wide = ArrayVec<u64, 32>;

/// What the program printed.
pub type Text = ArrayVec<u8, 6144>;

// A length that is at most so much.
fn length<R: Read>(reader: &mut Reader<R>, most: usize) -> Result<usize, Malformed>
    ensures kept { Keeps reader.old reader.new result }
    ensures told { Tells reader.new result }
    ensures bound { IfOk result (λ n. n ≤ most) }
{
    let n = usize::from(reader.next()?);
    if n <= most {
        Ok(n)
    } else {
        Err(reader.wrong())
    }
}

fn read_mask<R: Read>(reader: &mut Reader<R>) -> Result<Wide, Malformed>
    ensures kept { Keeps reader.old reader.new result }
    ensures told { Tells reader.new result }
{
    let n = length(reader, 32)?;
    reader.list(n)
}

// Numbers of refusals stay numbers in Check, Needed and Prepare and in read_output, with 0 for success: the format has them so, and `agreement` puts them
// beside the number in the code of a call. An enum would be made of the one number only to be turned into the other.

/// The number and the place of a refusal, or twice 0. (`agreement::Answer` is the like of it, in a crate that this one does not stand on.)
#[derive(Drop)]
pub struct Check {
    pub number: u16,
    pub place: u16,
}

impl Check {
    pub fn read<R: Read>(reader: &mut Reader<R>) -> Result<Check, Malformed>
        ensures kept { Keeps reader.old reader.new result }
        ensures told { Tells reader.new result }
    {
        Ok(Check {
            number: reader.next()?,
            place: reader.next()?,
        })
    }
}

#[derive(Drop)]
pub struct Needed {
    pub work: usize,
    pub number: u16,
    pub place: u16,
    pub reply: u16,
}

impl Needed {
    pub fn read<R: Read>(reader: &mut Reader<R>, room: usize) -> Result<Needed, Malformed>
        ensures kept { Keeps reader.old reader.new result }
        ensures told { Tells reader.new result }
        ensures work { IfOk result (λ said. said.work ≤ room) }
    {
        Ok(Needed {
            work: length(reader, room)?,
            number: reader.next()?,
            place: reader.next()?,
            reply: reader.next()?,
        })
    }
}

// After success the output's words, and after a refusal as many zeros.
fn read_output<R: Read>(reader: &mut Reader<R>, number: u16, n: usize) -> Result<Wide, Malformed>
    requires { n ≤ 32 }
    ensures kept { Keeps reader.old reader.new result }
    ensures told { Tells reader.new result }
    ensures len { IfOk result (λ output. array_vec_len output ≡ n) }
{
    // a malformed recording has no output either
    reader.state?;
    if number == 0 {
        return reader.list(n);
    }
    let mut output = ArrayVec::from_array_in((), [0; 32]);
    output.truncate(n);
    Ok(output)
}

/// Of preparation, and of the pass after its masks.
#[derive(Drop)]
pub struct Prepare {
    pub work: usize,
    pub number: u16,
    pub place: u16,
    pub output: Wide,
}

impl Prepare {
    pub fn read<R: Read>(reader: &mut Reader<R>, room: usize) -> Result<Prepare, Malformed>
        ensures kept { Keeps reader.old reader.new result }
        ensures told { Tells reader.new result }
        ensures work { IfOk result (λ said. said.work ≤ room) }
    {
        let n = length(reader, 32)?;
        let work = length(reader, room)?;
        let number = reader.next()?;
        Ok(Prepare {
            work,
            number,
            place: reader.next()?,
            output: read_output(reader, number, n)?,
        })
    }
}

/// Of the pass.
#[derive(Drop)]
pub struct Complete {
    pub never: Wide,
    pub atom_never: Wide,
    pub rest: Prepare,
}

impl Complete {
    pub fn read<R: Read>(reader: &mut Reader<R>, room: usize) -> Result<Complete, Malformed>
        ensures kept { Keeps reader.old reader.new result }
        ensures told { Tells reader.new result }
        ensures work { IfOk result (λ said. said.rest.work ≤ room) }
    {
        Ok(Complete {
            never: read_mask(reader)?,
            atom_never: read_mask(reader)?,
            rest: Prepare::read(reader, room)?,
        })
    }
}

/// A run of the program: how many bytes it read, which stand first in the memory that was lent for them, and what it printed. (The input is a number and no
/// part of that memory: a part that is borrowed from a `&mut` keeps contracts from saying what the memory holds then.)
#[derive(Drop)]
pub struct Run {
    pub input: usize,
    pub text: Text,
}

// The program's input goes into lent room, behind its length: two words, low first, put together as `recording` does it.
fn read_input<R: Read>(reader: &mut Reader<R>, room: &mut [u8]) -> Result<usize, Malformed>
    ensures kept { Keeps reader.old reader.new result }
    ensures told { Tells reader.new result }
    ensures input { IfOk result (λ n. n ≤ length room.new) }
{
    let low = usize::from(reader.next()?);
    let high = usize::from(reader.next()?);
    let n = low + (high << 16);
    if room.len() < n {
        return Err(reader.wrong());
    }
    reader.fill_bytes(&mut room[..n])?;
    Ok(n)
}

// The text, behind number and place, which it has too.
fn read_text<R: Read>(reader: &mut Reader<R>) -> Result<Text, Malformed>
    ensures kept { Keeps reader.old reader.new result }
    ensures told { Tells reader.new result }
{
    reader.skip(2)?;
    let n = length(reader, 6144)?;
    reader.bytes(n)
}

impl Run {
    pub fn read<R: Read>(reader: &mut Reader<R>, room: &mut [u8]) -> Result<Run, Malformed>
        ensures kept { Keeps reader.old reader.new result }
        ensures told { Tells reader.new result }
        ensures input { IfOk result (λ said. said.input ≤ length room.new) }
    {
        Ok(Run {
            input: read_input(reader, room)?,
            text: read_text(reader)?,
        })
    }
}
