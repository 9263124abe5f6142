// Replays the recording on standard input (README.md has its format), names the records in which something differs, and prints how many answers agree.
#![tactic(auto)]

ghost use Rattle.std.specs.Prelude.{◌≡◌, OnOk};

use recording::{Malformed, Reader};
use scoring::{Score, Scores};
use std::io;
use std::io::Read;

// Why not all records were replayed.
#[derive(Debug, Drop)]
enum Stop {
    Malformed(Malformed),
    Io(io::Error),
}

// `?` wants a From of each error; no derive of std writes one.
impl From<Malformed> for Stop {
    fn from(malformed: Malformed) -> Stop {
        Stop::Malformed(malformed)
    }
}

impl From<io::Error> for Stop {
    fn from(error: io::Error) -> Stop {
        Stop::Io(error)
    }
}

fn by_name(scores: &Scores) -> [(&'static str, Score); 5] {
    [
        ("check", scores.check),
        ("needed", scores.needed),
        ("prepare", scores.prepare),
        ("complete", scores.complete),
        ("program", scores.program),
    ]
}

// A line for each answer that differs in this record; records are counted from 0.
fn tell(rt: &impl Print, before: &Scores, after: &Scores, number: u16) -> io::Result<()> {
    let before = by_name(before);
    let after = by_name(after);
    for ((name, before), (_, after)) in before.iter().zip(&after) {
        for _ in before.differ..after.differ {
            println!(rt; "{name} differs in record {number}")?;
        }
    }
    Ok(())
}

// The mark, the version and the records. A recording that is not malformed was read to its end.
fn replay<R: Read>(rt: &impl Print, reader: &mut Reader<R>, scores: &mut Scores) -> Result<(), Stop>
    ensures { OnOk result (reader.new.left ≡ 0) }
{
    reader.expect(0x5346)?;
    reader.expect(1)?;
    let records = reader.next()?;
    for number in 0..records {
        let before = *scores;
        let replayed = replaying::replay_record(reader, scores);
        tell(rt, &before, scores, number)?;
        replayed?;
    }
    reader.expect_end()?;
    Ok(())
}

fn print(rt: &impl Print, scores: &Scores) -> io::Result<()> {
    for (name, score) in by_name(scores) {
        println!(rt; "{name} {score}")?;
    }
    Ok(())
}

fn main(rt: HostRuntime) -> io::Result<()> {
    let mut scores = Scores::default();
    match replay(&rt, &mut Reader::new(rt.stdin()), &mut scores) {
        Ok(()) => print(&rt, &scores),
        Err(Stop::Malformed(malformed)) => println!(rt; "{malformed}"),
        Err(Stop::Io(error)) => Err(error),
    }
}
