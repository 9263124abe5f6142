// What is recorded of a call or of a run of the program is read, compared with what it answers and leaves now, and counted: two numbers for each of
// `check`, `needed`, `prepare`, `complete` and the program, how many agree and how many differ.
#![tactic(auto)]

ghost use Rattle.std.specs.Prelude.{◌≡◌, ◌≤◌, ◌++◌, Some, IfOk, OnOk, OnErr, codes, decimal, length};
ghost use Rattle.recording.specs.Reading.{Keeps, Tells};
ghost use Rattle.scoring.specs.Scores.{scored, Scored};
ghost use Rattle.scoring.specs.Said.{CheckSaid, NeededSaid, PrepareSaid, CompleteSaid, RunSaid};

use agreement::{Answer, Outcome};
use recording::{Malformed, Reader};
use records::{Check, Complete, Needed, Prepare, Run};
use std::fmt;
use std::io::Read;

/// How many answers of a call agree with what is recorded, and how many differ.
#[derive(Clone, Copy, Debug, Default, PartialEq, Eq)]
pub struct Score {
    pub agree: u64,
    pub differ: u64,
}

impl fmt::Display for Score {
    ghost output = { λ s. Some (decimal s.agree ++ codes " agree, " ++ decimal s.differ ++ codes " differ") };

    fn fmt<W: fmt::Write>(&self, f: &mut fmt::Formatter<W>) -> fmt::Result {
        let agree = self.agree;
        let differ = self.differ;
        write!(f, "{agree} agree, {differ} differ")
    }
}

impl Score {
    fn count(&mut self, same: bool)
        ensures { self.new ≡ scored same self.old }
    {
        if same {
            self.agree = self.agree.saturating_add(1);
        } else {
            self.differ = self.differ.saturating_add(1);
        }
    }
}

/// Of each call and of the program.
#[derive(Clone, Copy, Debug, Default, PartialEq, Eq)]
pub struct Scores {
    pub check: Score,
    pub needed: Score,
    pub prepare: Score,
    pub complete: Score,
    pub program: Score,
}

// The five differ in what they lend the comparison and in which it is; reading and counting is one line in each, so a trait over them would be longer.
// Scored and what is said of a result that is an error are facts of a change, from the scores before to those after, so no type of the scores has them.

pub fn score_check<R: Read>(
    reader: &mut Reader<R>,
    graph: &[u16],
    scores: &mut Scores,
) -> Result<Check, Malformed>
    ensures kept { Keeps reader.old reader.new result }
    ensures told { Tells reader.new result }
    ensures scored { IfOk result (λ said. Scored (CheckSaid graph.now said) scores.old.check scores.new.check) }
    ensures others { OnOk result (scores.new ≡ record scores.old { check = scores.new.check }) }
    ensures unscored { OnErr result (scores.new ≡ scores.old) }
{
    let said = Check::read(reader)?;
    let answer = Answer {
        number: said.number,
        place: said.place,
    };
    scores.check.count(agreement::check_agrees(graph, answer));
    Ok(said)
}

pub fn score_needed<R: Read>(
    reader: &mut Reader<R>,
    graph: &[u16],
    work: &mut [u16],
    scores: &mut Scores,
) -> Result<Needed, Malformed>
    ensures kept { Keeps reader.old reader.new result }
    ensures told { Tells reader.new result }
    ensures scored { IfOk result (λ said. Scored (NeededSaid graph.now said) scores.old.needed scores.new.needed) }
    ensures others { OnOk result (scores.new ≡ record scores.old { needed = scores.new.needed }) }
    ensures unscored { OnErr result (scores.new ≡ scores.old) }
{
    let said = Needed::read(reader, work.len())?;
    let answer = Answer {
        number: said.number,
        place: said.place,
    };
    let work = &mut work[..said.work];
    scores
        .needed
        .count(agreement::needed_agrees(graph, work, answer, said.reply));
    Ok(said)
}

// What was read of preparation, or of the pass, as the comparison takes it.
fn outcome(said: &Prepare) -> Outcome<'_>
    ensures number { result.answer.number ≡ said.now.number }
    ensures place { result.answer.place ≡ said.now.place }
    ensures words { result.words.now ≡ said.now.output.items }
{
    Outcome {
        answer: Answer {
            number: said.number,
            place: said.place,
        },
        words: said.output.as_slice(),
    }
}

pub fn score_prepare<R: Read>(
    reader: &mut Reader<R>,
    graph: &[u16],
    work: &mut [u16],
    scores: &mut Scores,
) -> Result<Prepare, Malformed>
    ensures kept { Keeps reader.old reader.new result }
    ensures told { Tells reader.new result }
    ensures scored { IfOk result (λ said. Scored (PrepareSaid graph.now said) scores.old.prepare scores.new.prepare) }
    ensures others { OnOk result (scores.new ≡ record scores.old { prepare = scores.new.prepare }) }
    ensures unscored { OnErr result (scores.new ≡ scores.old) }
{
    let said = Prepare::read(reader, work.len())?;
    let outcome = outcome(&said);
    let mut output = [0u64; 32];
    scores.prepare.count(agreement::prepare_agrees(
        graph,
        &mut output[..outcome.words.len()],
        &mut work[..said.work],
        &outcome,
    ));
    Ok(said)
}

pub fn score_complete<R: Read>(
    reader: &mut Reader<R>,
    graph: &[u16],
    work: &mut [u16],
    scores: &mut Scores,
) -> Result<Complete, Malformed>
    ensures kept { Keeps reader.old reader.new result }
    ensures told { Tells reader.new result }
    ensures scored { IfOk result (λ said. Scored (CompleteSaid graph.now said) scores.old.complete scores.new.complete) }
    ensures others { OnOk result (scores.new ≡ record scores.old { complete = scores.new.complete }) }
    ensures unscored { OnErr result (scores.new ≡ scores.old) }
{
    let said = Complete::read(reader, work.len())?;
    let outcome = outcome(&said.rest);
    let mut output = [0u64; 32];
    scores.complete.count(agreement::complete_agrees(
        graph,
        said.never.as_slice(),
        said.atom_never.as_slice(),
        &mut output[..outcome.words.len()],
        &mut work[..said.rest.work],
        &outcome,
    ));
    Ok(said)
}

/// The run's input is read into the front of `room`, and is what the program is given.
pub fn score_run<R: Read>(
    reader: &mut Reader<R>,
    room: &mut [u8],
    scores: &mut Scores,
) -> Result<Run, Malformed>
    ensures kept { Keeps reader.old reader.new result }
    ensures told { Tells reader.new result }
    ensures input { IfOk result (λ said. said.input ≤ length room.new) }
    ensures scored { IfOk result (λ said. Scored (RunSaid room.new said) scores.old.program scores.new.program) }
    ensures others { OnOk result (scores.new ≡ record scores.old { program = scores.new.program }) }
    ensures unscored { OnErr result (scores.new ≡ scores.old) }
{
    let said = Run::read(reader, room)?;
    let input = &room[..said.input];
    scores
        .program
        .count(agreement::program_agrees(input, said.text.as_slice()));
    Ok(said)
}
