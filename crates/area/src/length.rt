// How long the work area is (refusal 11): in edition 1 the same for every graph; in edition 2 it depends on the graph's counts and on its entries, which are counted here.
ghost use Rattle.std.specs.Prelude.{◌≡◌, ◌≤◌, ◌<◌, length};
ghost use Rattle.theory.specs.Sets.{sum_below};
ghost use Rattle.theory.specs.Words.{chain, theory_of};
ghost use Rattle.theory.specs.Links.{MeetsOnce};
ghost use Rattle.theory.specs.Accepted.{Accepted, area_of};
ghost use Rattle.area.specs.Layout.{Roomy};
ghost use Rattle.area.specs.Rooms.{edition1_roomy, edition2_roomy};
ghost use Rattle.std.specs.Prelude.{List, ℕ, refl};

use words::Word;

pub trait Area: Word {
    fn area_words(graph: &[Self]) -> usize
        requires { Accepted Self.edition (Self.numbers graph.now) }
        ensures { result ≡ area_of Self.edition (theory_of (Self.numbers graph.now)) };

    ghost roomy: { (ws : List ℕ) → Accepted Self.edition ws → Roomy ws (area_of Self.edition (theory_of ws)) };
}

impl Area for u16 {
    ghost roomy = { λ ws accepted. edition1_roomy accepted refl };

    fn area_words(_graph: &[u16]) -> usize {
        32768
    }
}

// The entries of `count` chains, of which each begins at the link that the closure answers.
fn entries_of<W: Word, F: Fn(usize) -> usize>(graph: &[W], count: usize, first: F) -> usize
    requires accepted { Accepted W.edition (W.numbers graph.now) × (count ≤ W.edition.counts) }
    requires callable { (n : ℕ) → n < count → F.pre first n }
    requires chains { (n l : ℕ) → n < count → F.post first n l → MeetsOnce (W.numbers graph.now) l }
    ensures { (link : ℕ → ℕ) → ((n l : ℕ) → n < count → F.post first n l → l ≡ link n) → result ≡ sum_below count (λ n. length (chain (W.numbers graph.now) (link n))) }
{
    let mut total: usize = 0;
    for n in 0..count {
        total += graph::entries(graph, first(n));
    }
    total
}

impl Area for u32 {
    ghost roomy = { λ ws accepted. edition2_roomy accepted refl };

    fn area_words(graph: &[u32]) -> usize {
        let size = graph::atoms(graph) + graph::nodes(graph) + graph::producers(graph);
        let leaves = entries_of(graph, graph::nodes(graph), |n| graph::first_leaf(graph, n));
        let heads = entries_of(
            graph,
            graph::producers(graph),
            |p| graph::first_head(graph, p),
        );
        16 * (size + 1) + 4 * (leaves + heads)
    }
}
