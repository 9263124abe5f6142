// The graph check (document 01, "Where a call is turned away"; document 02, request 5). Rows 1 to 6 are in crate refusals, the others in rows.rt.
#![tactic(auto)]

mod rows;

ghost use Rattle.std.specs.Prelude.{◌≡◌};
ghost use Rattle.refusals.specs.Refusals.{graph_answer, answer_of};

use refusals::Refusal;
use words::Word;

// The graph check: refusals 1 to 9 and 14, in the table's order.
pub fn check<W: Word>(graph: &[W]) -> Result<(), Refusal>
    ensures { answer_of result ≡ graph_answer W.edition (W.numbers graph.now) }
{
    if refusals::bad_edition(graph) {
        return Err(Refusal::Edition);
    }
    if refusals::bad_counts(graph) {
        return Err(Refusal::Counts);
    }
    if refusals::bad_size(graph) {
        return Err(Refusal::Size);
    }
    rows::check_records(graph)
}
