// Goes through the records of a recording: every call and every run of the program in them is replayed and counted.
#![tactic(auto)]

ghost use Rattle.std.specs.Prelude.{◌≡◌, IfOk, OnOk, OnErr};
ghost use Rattle.recording.specs.Reading.{Keeps, Tells};
ghost use Rattle.replaying.specs.Replays.{Replayed, Calls, GraphReplayed, RunReplayed, RecordReplayed};

use recording::{Malformed, Reader};
use records::{Call, Kind};
use scoring::Scores;
use std::io::Read;

// One of the four calls, by its word.
fn replay_call<R: Read>(
    reader: &mut Reader<R>,
    graph: &[u16],
    scores: &mut Scores,
) -> Result<(), Malformed>
    ensures kept { Keeps reader.old reader.new result }
    ensures told { Tells reader.new result }
    ensures replayed { OnOk result (Replayed graph.now scores.old scores.new) }
    ensures unscored { OnErr result (scores.new ≡ scores.old) }
{
    let Ok(call) = Call::try_from(reader.next()?) else {
        return Err(reader.wrong());
    };
    // the longest work area that can be recorded
    let mut work = [0u16; 65536];
    match call {
        Call::Check => {
            scoring::score_check(reader, graph, scores)?;
        }
        Call::Needed => {
            scoring::score_needed(reader, graph, &mut work, scores)?;
        }
        Call::Prepare => {
            scoring::score_prepare(reader, graph, &mut work, scores)?;
        }
        Call::Complete => {
            scoring::score_complete(reader, graph, &mut work, scores)?;
        }
    }
    Ok(())
}

// So many calls.
#[tactic(auto, using(crate::specs::Replays::none))]
fn replay_calls<R: Read>(
    reader: &mut Reader<R>,
    graph: &[u16],
    calls: u16,
    scores: &mut Scores,
) -> Result<(), Malformed>
    ensures kept { Keeps reader.old reader.new result }
    ensures told { Tells reader.new result }
    ensures replayed { OnOk result (Calls graph.now scores.old calls scores.new) }
{
    reader.state?;
    for _ in 0..calls {
        replay_call(reader, graph, scores)?;
    }
    Ok(())
}

// A graph of at most 13,400 words, and its calls.
fn replay_graph<R: Read>(reader: &mut Reader<R>, scores: &mut Scores) -> Result<(), Malformed>
    ensures kept { Keeps reader.old reader.new result }
    ensures told { Tells reader.new result }
    ensures replayed { OnOk result (GraphReplayed scores.old scores.new) }
{
    let size = usize::from(reader.next()?);
    if 13400 < size {
        return Err(reader.wrong());
    }
    // (a list of its own would be put together in one place and moved to another, for each record)
    let mut room = [0u16; 13400];
    let graph = &mut room[..size];
    reader.fill(graph)?;
    let calls = reader.next()?;
    replay_calls(reader, graph, calls, scores)
}

// A run of the program, with room for the longest input, 70,054 bytes. (A function of its own: one clears its arrays when it begins, and a record of a graph has no use for this one.)
fn replay_run<R: Read>(reader: &mut Reader<R>, scores: &mut Scores) -> Result<(), Malformed>
    ensures kept { Keeps reader.old reader.new result }
    ensures told { Tells reader.new result }
    ensures replayed { OnOk result (RunReplayed scores.old scores.new) }
{
    let mut bytes = [0u8; 72000];
    scoring::score_run(reader, &mut bytes, scores)?;
    Ok(())
}

/// The next record. The answer is its kind.
pub fn replay_record<R: Read>(
    reader: &mut Reader<R>,
    scores: &mut Scores,
) -> Result<Kind, Malformed>
    ensures kept { Keeps reader.old reader.new result }
    ensures told { Tells reader.new result }
    ensures replayed { IfOk result (λ kind. RecordReplayed kind scores.old scores.new) }
{
    let Ok(kind) = Kind::try_from(reader.next()?) else {
        return Err(reader.wrong());
    };
    match kind {
        Kind::Graph => replay_graph(reader, scores)?,
        Kind::Run => replay_run(reader, scores)?,
    }
    Ok(kind)
}
