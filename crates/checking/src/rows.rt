// Rows 14 and 7 to 9 of the graph check, and the check from row 4 on.
ghost use Rattle.std.specs.Prelude.{◌≡◌, Bool, ℕ, ◌+◌, ◌≤◌, ◌<◌, get_or, drop, IfSome};
ghost use Rattle.theory.specs.Sets.{sum_below};
ghost use Rattle.theory.specs.Links.{MeetsOnce, comes_back};
ghost use Rattle.refusals.specs.Passed.{Sized, Linked, Chained};
ghost use Rattle.refusals.specs.Search.{Clear, Finds};
ghost use Rattle.refusals.specs.Answer.{refuse_first, first_refusal};
ghost use Rattle.refusals.specs.Refusals.{bad_node, bad_producer, leaves_back, heads_back, graph_rows, answer_of};
ghost use Rattle.checking.specs.Walked.{Gives, Makes, bad_place, entries_of, Counted};

use graph::{atoms, first_head, first_leaf, follow, links, links_from, next, nodes, producers};
use refusals::search::first;
use refusals::{Refusal, bad_link, bad_node, bad_producer, first_turn};
use words::Word;

// Row 14: a chain that is not at its end after K links comes back to one of its own.
fn comes_back<W: Word>(graph: &[W], first: usize) -> bool
    requires { Sized W.edition (W.numbers graph.now) × Linked (W.numbers graph.now) × (first ≤ get_or (W.numbers graph.now) 4 0) }
    ensures { result ≡ comes_back (W.numbers graph.now) first }
{
    let from = links_from(graph);
    let mut l = first;
    for _followed in 0..links(graph) {
        if l == 0 {
            return false;
        }
        l = next(graph, from, l);
    }
    l != 0
}

// That of a node's leaves, or of a producer's heads. Each has its own accessor and range; the check finds no `requires` for a closure that hands what one call gave to another, so the two are functions.
fn leaves_back<W: Word>(graph: &[W], n: usize) -> bool
    requires { Sized W.edition (W.numbers graph.now) × Linked (W.numbers graph.now) × (n < get_or (W.numbers graph.now) 2 0) }
    ensures { result ≡ leaves_back (W.numbers graph.now) n }
{
    comes_back(graph, first_leaf(graph, n))
}

fn heads_back<W: Word>(graph: &[W], p: usize) -> bool
    requires { Sized W.edition (W.numbers graph.now) × Linked (W.numbers graph.now) × (p < get_or (W.numbers graph.now) 3 0) }
    ensures { result ≡ heads_back (W.numbers graph.now) p }
{
    comes_back(graph, first_head(graph, p))
}

// What a row answers whose test holds first at the place found. A refusal has its place in 32 bits, and every place is lower: the cast is here and in `walk`, and
// `try_from` would want an error that can't come.
fn refuse<R: Fn(u32) -> Refusal>(found: Option<usize>, refusal: R) -> Result<(), Refusal>
    requires low { IfSome found (λ i. i < 4294967296) }
    requires callable { R.IsAlwaysCallable refusal }
    ensures { (number : ℕ) (bad : ℕ → Bool) (from count end : ℕ) → from + count ≡ end → Makes (R.post refusal) number → Finds bad from end found → answer_of result ≡ refuse_first number bad from count }
{
    match found {
        None => Ok(()),
        Some(i) => Err(refusal(i as u32)),
    }
}

// A walk along the chains of the places below `end`: a refusal of the first with an entry that is not below its limit, or how many entries all of them have.
// The label is document 01's: from the loop along a chain it leaves the loop over the places too.
fn walk<W: Word, F: Fn(usize) -> usize, L: Fn(usize) -> usize, R: Fn(u32) -> Refusal>(
    graph: &[W],
    end: usize,
    first: F,
    limit: L,
    refusal: R,
) -> Result<usize, Refusal>
    requires sized { Sized W.edition (W.numbers graph.now) }
    requires end_low { end ≤ W.edition.counts }
    requires first_callable { (n : ℕ) → n < end → F.pre first n }
    requires limit_callable { (n : ℕ) → n < end → L.pre limit n }
    requires refusal_callable { R.IsAlwaysCallable refusal }
    requires chained { (n l : ℕ) → n < end → F.post first n l → MeetsOnce (W.numbers graph.now) l }
    ensures { (link bound : ℕ → ℕ) (number : ℕ) → Gives (F.post first) end link → Gives (L.post limit) end bound → Makes (R.post refusal) number → Counted (refuse_first number (bad_place (W.numbers graph.now) bound link) 0 end) (sum_below end (entries_of (W.numbers graph.now) link)) result }
{
    let mut entries: usize = 0;
    'places: {
        for n in 0..end {
            let below = limit(n);
            for v in follow(graph, first(n)) {
                if below <= v {
                    break 'places Err(refusal(n as u32));
                }
                entries += 1;
            }
        }
        Ok(entries)
    }
}

// Rows 7 to 9: the first node with a leaf that is not below it, the first producer with a head that is no atom, and the totals.
fn check_entries<W: Word>(graph: &[W]) -> Result<(), Refusal>
    requires sized { Sized W.edition (W.numbers graph.now) }
    requires chained { Chained (W.numbers graph.now) }
    ensures { answer_of result ≡ first_refusal (drop 8 (graph_rows W.edition (W.numbers graph.now))) }
{
    let atoms = atoms(graph);
    let leaves = walk(
        graph,
        nodes(graph),
        |n| first_leaf(graph, n),
        |n| n,
        Refusal::Leaf,
    )?;
    let heads = walk(
        graph,
        producers(graph),
        |p| first_head(graph, p),
        |_| atoms,
        Refusal::Head,
    )?;
    if W::ENTRIES < leaves {
        return Err(Refusal::Entries);
    }
    if W::ENTRIES < heads {
        return Err(Refusal::Entries);
    }
    Ok(())
}

// Rows 14 and 7 to 9. Like `check_records` but for the rows: each line is one of the table's.
fn check_chains<W: Word>(graph: &[W]) -> Result<(), Refusal>
    requires sized { Sized W.edition (W.numbers graph.now) }
    requires linked { Linked (W.numbers graph.now) }
    ensures { answer_of result ≡ first_refusal (drop 6 (graph_rows W.edition (W.numbers graph.now))) }
{
    refuse(
        first(0, nodes(graph), |n| leaves_back(graph, n)),
        Refusal::Back,
    )?;
    refuse(
        first(0, producers(graph), |p| heads_back(graph, p)),
        Refusal::Back,
    )?;
    check_entries(graph)
}

// Rows 6, 14 and 7 to 9. Where all links lead upward, rows 6 and 14 pass and no chain is followed for 14.
fn check_links<W: Word>(graph: &[W]) -> Result<(), Refusal>
    requires sized { Sized W.edition (W.numbers graph.now) }
    requires clear { Clear (bad_node (W.numbers graph.now)) 0 (get_or (W.numbers graph.now) 2 0) × Clear (bad_producer (W.numbers graph.now)) 0 (get_or (W.numbers graph.now) 3 0) }
    ensures { answer_of result ≡ first_refusal (drop 5 (graph_rows W.edition (W.numbers graph.now))) }
{
    let Some(start) = first_turn(graph) else {
        return check_entries(graph);
    };
    refuse(bad_link(graph, start), Refusal::Link)?;
    check_chains(graph)
}

// Rows 4 to 9 and 14.
pub fn check_records<W: Word>(graph: &[W]) -> Result<(), Refusal>
    requires { Sized W.edition (W.numbers graph.now) }
    ensures { answer_of result ≡ first_refusal (drop 3 (graph_rows W.edition (W.numbers graph.now))) }
{
    refuse(bad_node(graph), Refusal::Node)?;
    refuse(bad_producer(graph), Refusal::Producer)?;
    check_links(graph)
}
