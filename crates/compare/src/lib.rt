// One order for graphs, by content (document 02, request 14). The two graphs are walked side by side up to the first difference, and the walk checks the second graph too: a walk and two
// checks would take three times as long as a check.
#![tactic(auto)]

ghost use Rattle.std.specs.Prelude.{◌≡◌, ℕ, ◌≤◌, ◌<◌, length, get_or, Decides};
ghost use Rattle.std.specs.Ordering.{nat_cmp};
ghost use Rattle.std.specs.Cmp.Lexicographic.{slice_cmp};
ghost use Rattle.theory.specs.Words.{chain};
ghost use Rattle.theory.specs.Links.{MeetsOnce};
ghost use Rattle.theory.specs.Order.{node_content, producer_content, record_cmp, node_cmp, producer_cmp, counts_cmp, content_cmp};
ghost use Rattle.graph.specs.Layout.{NodeIn, leaf_link, head_link};
ghost use Rattle.refusals.specs.Passed.{Chained};
ghost use Rattle.refusals.specs.Answer.{accept};
ghost use Rattle.refusals.specs.Refusals.{graph_answer};
ghost use Rattle.compare.specs.Beside.{Walkable, Beside, InTurn, SideBySide};
ghost use Rattle.compare.specs.Comparison.{comparison_of, comparison};

use graph::{
    atoms, body, first_head, first_leaf, follow, kind, links, links_from, next, nodes, operand,
    producers, value,
};
use refusals::Refusal;
use std::cmp::Ordering;
use words::Word;

// Two lists: the first difference decides, and a shorter beginning comes first. The second graph's first link may be no link of it, and its chain may come back to one of its own links: it is
// followed no further than the first graph's.
fn by_list<W: Word>(x: &[W], y: &[W], first: usize, other: usize) -> Ordering
    requires { SideBySide W.edition (W.numbers x.now) (W.numbers y.now) × MeetsOnce (W.numbers x.now) first }
    ensures { Beside (MeetsOnce (W.numbers y.now) other) (slice_cmp nat_cmp (chain (W.numbers x.now) first) (chain (W.numbers y.now) other)) result }
{
    if links(y) < other {
        return Ordering::Less;
    }
    let from = links_from(y);
    let mut m = other;
    for v in follow(x, first) {
        if m == 0 {
            return Ordering::Greater;
        }
        let w = value(y, from, m);
        if v != w {
            return v.cmp(&w);
        }
        m = next(y, from, m);
    }
    if m == 0 {
        Ordering::Equal
    } else {
        Ordering::Less
    }
}

// Kind, operand.
#[tactic(auto, unfolding(theory::specs::Words::theory_of, theory::specs::Order::node_content))]
fn by_record<W: Word>(x: &[W], y: &[W], n: usize) -> Ordering
    requires { NodeIn (W.numbers x.now) n × NodeIn (W.numbers y.now) n }
    ensures { result ≡ record_cmp (node_content (W.numbers x.now) n) (node_content (W.numbers y.now) n) }
{
    kind(x, n)
        .cmp(&kind(y, n))
        .then(operand(x, n).cmp(&operand(y, n)))
}

// Kind and operand, then the leaf list.
fn by_node<W: Word>(x: &[W], y: &[W], n: usize) -> Ordering
    requires { SideBySide W.edition (W.numbers x.now) (W.numbers y.now) × (n < get_or (W.numbers x.now) 2 0) × (n < get_or (W.numbers y.now) 2 0) }
    ensures { Beside (MeetsOnce (W.numbers y.now) (leaf_link (W.numbers y.now) n)) (node_cmp (node_content (W.numbers x.now) n) (node_content (W.numbers y.now) n)) result }
{
    let found = by_record(x, y, n);
    if found.is_ne() {
        return found;
    }
    by_list(x, y, first_leaf(x, n), first_leaf(y, n))
}

// Body + 1, head list.
fn by_producer<W: Word>(x: &[W], y: &[W], p: usize) -> Ordering
    requires { SideBySide W.edition (W.numbers x.now) (W.numbers y.now) × (p < get_or (W.numbers x.now) 3 0) × (p < get_or (W.numbers y.now) 3 0) }
    ensures { Beside (MeetsOnce (W.numbers y.now) (head_link (W.numbers y.now) p)) (producer_cmp (producer_content (W.numbers x.now) p) (producer_content (W.numbers y.now) p)) result }
{
    let found = body(x, p).cmp(&body(y, p));
    if found.is_ne() {
        return found;
    }
    by_list(x, y, first_head(x, p), first_head(y, p))
}

// The places below `end` in turn: the first that differs decides.
fn in_turn<F: Fn(usize) -> Ordering>(end: usize, by_place: F) -> Ordering
    requires { (i : ℕ) → i < end → F.pre by_place i }
    ensures { InTurn (F.post by_place) end result }
{
    for i in 0..end {
        let found = by_place(i);
        if found.is_ne() {
            return found;
        }
    }
    Ordering::Equal
}

// A, N and P.
#[tactic(auto, unfolding(theory::specs::Words::theory_of, theory::specs::Order::counts_cmp))]
fn by_counts<W: Word>(x: &[W], y: &[W]) -> Ordering
    requires { (5 ≤ length (W.numbers x.now)) × (5 ≤ length (W.numbers y.now)) }
    ensures { result ≡ counts_cmp (W.numbers x.now) (W.numbers y.now) }
{
    atoms(x)
        .cmp(&atoms(y))
        .then(nodes(x).cmp(&nodes(y)))
        .then(producers(x).cmp(&producers(y)))
}

// The counts, then the nodes in turn, then the producers in turn.
#[tactic(auto, using(crate::proofs::RecordLaws::nodes_same, crate::proofs::RecordLaws::producers_same))]
fn by_content<W: Word>(x: &[W], y: &[W]) -> Ordering
    requires { SideBySide W.edition (W.numbers x.now) (W.numbers y.now) }
    ensures { Beside (Chained (W.numbers y.now)) (content_cmp (W.numbers x.now) (W.numbers y.now)) result }
{
    let counts = by_counts(x, y);
    if counts.is_ne() {
        return counts;
    }
    let found = in_turn(nodes(x), |n| by_node(x, y, n));
    if found.is_ne() {
        return found;
    }
    in_turn(producers(x), |p| by_producer(x, y, p))
}

// Rows 1 to 3 and 6 of the check, which are all that the walk asks of the second graph.
fn walkable<W: Word>(graph: &[W]) -> bool
    ensures { Decides result (Walkable W.edition (W.numbers graph.now)) }
{
    if refusals::bad_edition(graph) || refusals::bad_counts(graph) || refusals::bad_size(graph) {
        return false;
    }
    let Some(start) = refusals::first_turn(graph) else {
        return true;
    };
    refusals::bad_link(graph, start).is_none()
}

// The order of two graphs, of which the first is accepted, where the second is too. Equal only where it is.
fn walk<W: Word>(x: &[W], y: &[W]) -> Ordering
    requires { graph_answer W.edition (W.numbers x.now) ≡ accept }
    ensures { Beside (graph_answer W.edition (W.numbers y.now) ≡ accept) (content_cmp (W.numbers x.now) (W.numbers y.now)) result }
{
    if walkable(y) {
        by_content(x, y)
    } else {
        Ordering::Less
    }
}

// The first graph's refusal, or where that is accepted the second's, or else the order of the two. Where the walk finds no difference, the second graph is accepted and needs no check.
pub fn compare<W: Word>(x: &[W], y: &[W]) -> Result<Ordering, Refusal>
    ensures { comparison_of result ≡ comparison W.edition (W.numbers x.now) (W.numbers y.now) }
{
    checking::check(x)?;
    let found = walk(x, y);
    if found.is_ne() {
        checking::check(y)?;
    }
    Ok(found)
}
