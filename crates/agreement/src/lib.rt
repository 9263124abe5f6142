// Whether a call answers, and leaves, what is recorded of it. The call is made here, over output and work area that are soiled first; nothing is read or written.
#![tactic(auto)]

ghost use Rattle.std.specs.Prelude.{◌≡◌, true, ◌↔◌, length};
ghost use Rattle.refusals.specs.Answer.{refuse};
ghost use Rattle.abi.specs.Codes.{Tells};
ghost use Rattle.agreement.specs.Agreement.{right_output, right_work, Agrees, needed_code, CheckAgrees, NeededAgrees, PrepareAgrees, CompleteAgrees, ProgramAgrees};

use abi::codes::Code;

const SOIL: u16 = 21845;

const WIDE_SOIL: u64 = 6148914691236517205;

// In Answer and work_agrees a refusal's number stays a number, and 0 that of success: the recorded list has it so, and so has the code of a call, beside which it is put.
// An enum would be made of the one number only to be turned into the other.

/// What a call should answer: the number of a refusal and its place, or twice 0.
#[derive(Clone, Copy, Debug, PartialEq, Eq)]
pub struct Answer {
    pub number: u16,
    pub place: u16,
}

impl Answer {
    // As the archive's calls have it.
    fn code(self) -> u32
        ensures { Tells 65536 (refuse self.number self.place) result }
    {
        u32::of(usize::from(self.number), usize::from(self.place))
    }

    fn needed_code(self, reply: u16) -> u32
        ensures { result ≡ needed_code self.number self.place reply }
    {
        if self.number == 0 {
            u32::from(reply)
        } else {
            self.code()
        }
    }
}

/// What preparation or the pass should answer and leave: a refusal, or twice 0 and the output's words.
#[derive(Clone, Copy)]
pub struct Outcome<'a> {
    pub answer: Answer,
    pub words: &'a [u64],
}

impl Outcome<'_> {
    fn output_agrees(&self, output: &[u64]) -> bool
        ensures { (result ≡ true) ↔ (output.now ≡ right_output self.now.answer.number self.now.words.now (length output.now)) }
    {
        if self.answer.number == 0 {
            return output == self.words;
        }
        output.iter().all(|word| *word == WIDE_SOIL)
    }

    // What the call answered and left.
    fn agrees(&self, code: u32, output: &[u64], work: &[u16]) -> bool
        ensures { (result ≡ true) ↔ Agrees self.now.answer.number self.now.answer.place self.now.words.now code output.now work.now }
    {
        code == self.answer.code()
            && self.output_agrees(output)
            && work_agrees(self.answer.number, work)
    }
}

fn work_agrees(number: u16, work: &[u16]) -> bool
    ensures { (result ≡ true) ↔ (work.now ≡ right_work number (length work.now)) }
{
    let right = match number {
        0 | 12 => 0,
        _ => SOIL,
    };
    work.iter().all(|word| *word == right)
}

/// The graph check, beside its answer.
pub fn check_agrees(graph: &[u16], answer: Answer) -> bool
    ensures { CheckAgrees graph.now answer.number answer.place result }
{
    abi::founded_check(graph) == answer.code()
}

/// The loop test, beside its answer, or the reply.
pub fn needed_agrees(graph: &[u16], work: &mut [u16], answer: Answer, reply: u16) -> bool
    ensures { NeededAgrees graph.now (length work.old) answer.number answer.place reply result }
{
    work.fill(SOIL);
    let code = abi::founded_needed(graph, work);
    code == answer.needed_code(reply) && work_agrees(answer.number, work)
}

// Preparation and pass differ in the call that they make and in its arguments: one function over a closure would have longer clauses than the three lines that they share.

/// Preparation, beside its outcome.
pub fn prepare_agrees(
    graph: &[u16],
    output: &mut [u64],
    work: &mut [u16],
    outcome: &Outcome,
) -> bool
    ensures { PrepareAgrees graph.now (length output.old) (length work.old) outcome.now.answer.number outcome.now.answer.place outcome.now.words.now result }
{
    output.fill(WIDE_SOIL);
    work.fill(SOIL);
    let code = abi::founded_prepare(graph, output, work);
    outcome.agrees(code, output, work)
}

/// The pass, beside its outcome.
pub fn complete_agrees(
    graph: &[u16],
    never: &[u64],
    atom_never: &[u64],
    output: &mut [u64],
    work: &mut [u16],
    outcome: &Outcome,
) -> bool
    ensures { CompleteAgrees graph.now never.now atom_never.now (length output.old) (length work.old) outcome.now.answer.number outcome.now.answer.place outcome.now.words.now result }
{
    output.fill(WIDE_SOIL);
    work.fill(SOIL);
    let code = abi::founded_complete(graph, never, atom_never, output, work);
    outcome.agrees(code, output, work)
}

/// The program's text for an input, beside the recorded one.
pub fn program_agrees(input: &[u8], text: &[u8]) -> bool
    ensures { ProgramAgrees input.now text.now result }
{
    let mut out = [0u8; 6144];
    let n = report::report(input, &mut out);
    &out[..n] == text
}
