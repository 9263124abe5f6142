// The work area's words: how many, clearing, and where the regions begin.
#![tactic(auto)]

pub mod length;

ghost use Rattle.std.specs.Prelude.{◌≡◌, true, ◌<◌, ◌^◌, length, replicate};
ghost use Rattle.theory.specs.Accepted.{Accepted};
ghost use Rattle.area.specs.Layout.{words_for, LaidOut, Roomy, Based};

pub fn clear<W: Word>(words: &mut [W])
    ensures { W.numbers words.new ≡ replicate (length (W.numbers words.old)) 0 }
{
    words::fill(words, W::of(0));
}

// Whether all words are 0, with no branch on any of them (an iterator's `all` has one at each).
fn blank<W: Word>(words: &[W]) -> bool
    ensures { result ≡ true → W.numbers words.now ≡ replicate (length (W.numbers words.now)) 0 }
{
    let mut all = W::of(0);
    for word in words {
        all = all.or(*word);
    }
    all.read() == 0
}

fn wipe_block<W: Word>(words: &mut [W])
    ensures { W.numbers words.new ≡ replicate (length (W.numbers words.old)) 0 }
{
    if blank(words) {
        return;
    }
    clear(words);
}

// How many words are looked at before any of them is written.
const BLOCK: usize = 512;

// Clears what may be 0 already in most places: a block that is all 0 is read and not written. The work area is larger than the cache next to the
// processor, and there reading takes less time than writing. (After a loop over `chunks_mut` a proof knows the length alone, so the blocks are counted.)
pub fn wipe<W: Word>(words: &mut [W])
    ensures { W.numbers words.new ≡ replicate (length (W.numbers words.old)) 0 }
{
    let blocks = words.len() / BLOCK;
    for block in 0..blocks {
        let from = BLOCK * block;
        wipe_block(&mut words[from..from + BLOCK]);
    }
    let rest = BLOCK * blocks;
    clear(&mut words[rest..]);
}

use words::Word;

// A graph's counts, at most so many leaf entries and head entries, and where each region begins. A vertex has a pair of words: its mark (`states`)
// and its count (`dependencies`). Indices, since all regions are parts of one lent area.
//
// Why no struct holds graph, work area and bases, with `Accepted`, `Based`, `Laid` and the like as ghost fields (tried in crates graph and events): what it holds is read as
// `lent.now.graph.now` behind a reference, and as `lent.entry.graph.now` in the `ensures` of one by value, so that each clause gets longer to save one (516 signs for 514 at
// `events::settle_in`); a view hides the facts from callers; a `&mut` in it needs a clause more, that it is the same one; and what a store changes has to be said anew.
#[derive(Clone, Copy)]
pub struct Bases {
    pub atoms: usize,
    pub nodes: usize,
    pub producers: usize,
    pub leaf_entries: usize,
    pub head_entries: usize,
    pub atom_nodes: usize,
    pub parents: usize,
    pub by_head: usize,
    pub by_body: usize,
    pub states: usize,
    pub dependencies: usize,
    pub queue: usize,
    pub body_nodes: usize,
    pub fact_rows: usize,
    pub cyclic_atoms: usize,
    pub end: usize,
}

// The regions, one after the other.
pub fn lay_out(
    atoms: usize,
    nodes: usize,
    producers: usize,
    leaf_entries: usize,
    head_entries: usize,
) -> Bases
    requires { words_for atoms nodes producers leaf_entries head_entries < 2 ^ 64 }
    ensures { LaidOut atoms nodes producers leaf_entries head_entries result }
{
    let parents = atoms + 1 + nodes;
    let by_head = parents + (nodes + 1 + leaf_entries);
    let by_body = by_head + (atoms + 1 + head_entries);
    let states = by_body + (nodes + 1 + producers);
    let dependencies = states + (atoms + nodes);
    let queue = dependencies + (atoms + nodes);
    let body_nodes = queue + (atoms + nodes);
    let fact_rows = body_nodes + (atoms + nodes + 1);
    let cyclic_atoms = fact_rows + producers;
    Bases {
        atoms,
        nodes,
        producers,
        leaf_entries,
        head_entries,
        atom_nodes: 0,
        parents,
        by_head,
        by_body,
        states,
        dependencies,
        queue,
        body_nodes,
        fact_rows,
        cyclic_atoms,
        end: cyclic_atoms + atoms,
    }
}

// Those of an accepted graph, in an area of so many words. A function with several callers, which is not inlined, works them out anew: handed over, a copy
// would take 128 bytes of each caller's stack.
pub fn bases_of<W: Word>(graph: &[W], words: usize) -> Bases
    requires { Accepted W.edition (W.numbers graph.now) × Roomy (W.numbers graph.now) words }
    ensures { Based (W.numbers graph.now) words result }
{
    let atoms = graph::atoms(graph);
    let nodes = graph::nodes(graph);
    let producers = graph::producers(graph);
    let entries = (words - (7 * atoms + 7 * nodes + 2 * producers + 5)) / 2;
    lay_out(atoms, nodes, producers, entries, entries)
}
