// The pass within a work allowance (document 02, request 8). It counts as it goes and stops at the first vertex whose row can't be paid for. The rows are settled by the worklist's own
// `Rows`, and the laws of a turn are the worklist's; the charges and the loop over the queue are what is here.
#![tactic(auto)]

ghost use Rattle.std.specs.Prelude.{◌≡◌, false, ℕ, ◌+◌, ◌<◌, ◌≤◌, length, MatchOption};
ghost use Rattle.theory.specs.Words.{theory_of, bit_at};
ghost use Rattle.theory.specs.Rows.{succs};
ghost use Rattle.theory.specs.Founded.{cyclic, cyclic_cone};
ghost use Rattle.theory.specs.Accepted.{Accepted, area_of};
ghost use Rattle.theory.specs.Charge.{charge};
ghost use Rattle.refusals.specs.Answer.{accept};
ghost use Rattle.refusals.specs.Refusals.{graph_answer};
ghost use Rattle.rows.specs.Rows.{Named};
ghost use Rattle.events.specs.Run.{GraphRows, Runs};
ghost use Rattle.preparation.specs.Stages.{Standing};
ghost use Rattle.founded.specs.Answers.{bad_lengths};
ghost use Rattle.founded.specs.declared.CallError.TheVariants.{Refused};
ghost use Rattle.within.specs.declared.WithinError.TheVariants.{Call};
ghost use Rattle.within.specs.Within.{Pays, heads_in, Followed, Stopped, PassedWithin, Exceeded};
ghost use Rattle.within.specs.WithinAnswers.{within_of, left_of, CompletesWithin};

use area::Bases;
use area::length::Area;
use cones::Cone;
use events::{Original, Rows};
use founded::CallError;
use refusals::Refusal;
use std::ops::Range;
use words::Word;

// A work allowance, which is the caller's: what is left of it.
#[derive(Clone, Copy, Debug, PartialEq, Eq)]
pub struct Meter {
    pub left: u64,
}

// Why a call is turned away: as the lone pass, or since the count exceeds the allowance. specs/WithinAnswers has the number and place of each.
#[derive(Clone, Copy, Debug, PartialEq, Eq)]
pub enum WithinError {
    Call(CallError),
    Allowance,
}

// For `?`.
impl From<Refusal> for WithinError {
    ghost from_gives = { λ refusal e. e ≡ Call (Refused refusal) };

    fn from(refusal: Refusal) -> WithinError {
        WithinError::Call(CallError::Refused(refusal))
    }
}

// What is left of an allowance after a count, or none.
fn take(allowance: u64, count: usize) -> Option<u64>
    ensures { Pays result allowance count }
{
    allowance.checked_sub(count as u64)
}

// The head entries of the producers in a range of the work area, paid for one producer after the other.
fn pay_heads<W: Word>(graph: &[W], work: &[W], row: Range<usize>, allowance: u64) -> Option<u64>
    requires accepted { Accepted W.edition (W.numbers graph.now) × Named (W.numbers graph.now) (W.numbers work.now) row.start row.end }
    requires inside { (row.start ≤ row.end) × (row.end ≤ length (W.numbers work.now)) }
    ensures { Pays result allowance (heads_in (W.numbers graph.now) (W.numbers work.now) row.start row.end) }
{
    let mut left = allowance;
    for i in row.start..row.end {
        let first = graph::first_head(graph, words::at(work, i));
        left = take(left, graph::entries(graph, first))?;
    }
    Some(left)
}

// Vertex v and the entries of its row.
fn pay<W: Word>(graph: &[W], work: &[W], b: Bases, v: usize, allowance: u64) -> Option<u64>
    requires { GraphRows W.edition (W.numbers graph.now) b (W.numbers work.now) × (v < b.atoms + b.nodes) }
    ensures { Pays result allowance (charge (theory_of (W.numbers graph.now)) v) }
{
    if v < b.atoms {
        let nodes = rows::place(work, b.atom_nodes, b.atoms, v);
        return take(allowance, 1 + (nodes.end - nodes.start));
    }
    let m = v - b.atoms;
    let parents = rows::place(work, b.parents, b.nodes, m);
    let bodies = rows::place(work, b.by_body, b.nodes, m);
    let left = take(allowance, 1 + (parents.end - parents.start))?;
    pay_heads(graph, work, bodies, left)
}

// Every vertex on the queue in turn, as long as it can be paid for; the answer is what is left. (The loop of `events::settle_in` with one line more. One for both would take what a turn costs
// from a trait, with clauses on what is paid so far and on where it stops, and be longer than the two.)
fn settle_within<W: Word>(
    graph: &[W],
    work: &mut [W],
    b: Bases,
    first: usize,
    allowance: u64,
) -> Option<u64>
    requires stand { GraphRows W.edition (W.numbers graph.now) b (W.numbers work.old) }
    requires runs { Runs W.limit b (succs (theory_of (W.numbers graph.now))) (W.numbers work.old) first }
    ensures { MatchOption result (Stopped W.limit (W.numbers graph.now) b (W.numbers work.old) (W.numbers work.new) first allowance) (λ left. Followed W.limit (W.numbers graph.now) b (W.numbers work.old) (W.numbers work.new) first allowance left) }
{
    let rows = Original { graph, bases: b };
    let mut left = allowance;
    let mut head: usize = 0;
    let mut tail = first;
    while head < tail {
        let v = words::at(work, b.queue + head);
        left = pay(graph, work, b, v, left)?;
        tail = rows.settle(work, v, tail);
        head += 1;
    }
    Some(left)
}

// The pass: the facts are paid for before their heads are looked at, and each vertex before its row is followed.
fn pass_within<W: Word>(
    graph: &[W],
    never: &[u64],
    atom_never: &[u64],
    work: &mut [W],
    b: Bases,
    c: Cone,
    allowance: u64,
) -> Option<u64>
    requires { Accepted W.edition (W.numbers graph.now) × Standing (W.numbers graph.now) b (cyclic (theory_of (W.numbers graph.now))) (cyclic_cone (theory_of (W.numbers graph.now))) (W.numbers work.old) c }
    ensures { MatchOption result (Exceeded (W.numbers graph.now) (bit_at never.now) (bit_at atom_never.now) (W.numbers work.old) (W.numbers work.new) allowance) (λ left. PassedWithin (W.numbers graph.now) (bit_at never.now) (bit_at atom_never.now) b (W.numbers work.old) (W.numbers work.new) allowance left) }
{
    let facts = b.fact_rows..b.fact_rows + c.facts;
    let left = pay_heads(graph, work, facts, allowance)?;
    let first = initialization::start(graph, never, atom_never, work, b, c.nodes, c.facts);
    settle_within(graph, work, b, first, left)
}

// The call after refusals 1 to 11: what is left of the allowance.
fn complete_accepted<W: Area>(
    graph: &[W],
    never: &[u64],
    atom_never: &[u64],
    output: &mut [u64],
    work: &mut [W],
    allowance: u64,
) -> Result<u64, WithinError>
    requires { (graph_answer W.edition (W.numbers graph.now) ≡ accept) × (bad_lengths (W.numbers graph.now) (length never.now) (length atom_never.now) (length output.old) ≡ false) × (length (W.numbers work.old) ≡ area_of W.edition (theory_of (W.numbers graph.now))) }
    ensures { CompletesWithin W.edition (W.numbers graph.now) never.now atom_never.now output.old (W.numbers work.old) allowance output.new (W.numbers work.new) (left_of allowance result) (within_of result) }
{
    let words = work.len();
    let b = area::bases_of(graph, words);
    match preparation::stand(graph, work, b) {
        Ok(c) => match pass_within(graph, never, atom_never, work, b, c, allowance) {
            Some(left) => {
                founded::hand_out(work, b.dependencies, b.atoms, output);
                Ok(left)
            }
            None => {
                area::wipe(work);
                Err(WithinError::Allowance)
            }
        },
        Err(absorbed) => {
            area::wipe(work);
            Err(WithinError::Call(CallError::Absorbed(absorbed.node)))
        }
    }
}

// The pass within an allowance that is a number: what is left of it is the answer.
fn spend<W: Area>(
    graph: &[W],
    never: &[u64],
    atom_never: &[u64],
    output: &mut [u64],
    work: &mut [W],
    allowance: u64,
) -> Result<u64, WithinError>
    ensures { CompletesWithin W.edition (W.numbers graph.now) never.now atom_never.now output.old (W.numbers work.old) allowance output.new (W.numbers work.new) (left_of allowance result) (within_of result) }
{
    checking::check(graph)?;
    if founded::bad_lengths(graph, never.len(), atom_never.len(), output.len()) {
        return Err(WithinError::Call(CallError::Lengths));
    }
    if work.len() != W::area_words(graph) {
        return Err(WithinError::Call(CallError::Work));
    }
    complete_accepted(graph, never, atom_never, output, work, allowance)
}

// The missing atoms, within the caller's allowance, which falls by the count.
pub fn complete<W: Area>(
    graph: &[W],
    never: &[u64],
    atom_never: &[u64],
    output: &mut [u64],
    work: &mut [W],
    meter: &mut Meter,
) -> Result<(), WithinError>
    ensures { CompletesWithin W.edition (W.numbers graph.now) never.now atom_never.now output.old (W.numbers work.old) meter.old.left output.new (W.numbers work.new) meter.new.left (within_of result) }
{
    match spend(graph, never, atom_never, output, work, meter.left) {
        Ok(left) => {
            meter.left = left;
            Ok(())
        }
        Err(WithinError::Allowance) => {
            meter.left = 0;
            Err(WithinError::Allowance)
        }
        Err(error) => Err(error),
    }
}
