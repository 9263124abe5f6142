// How long a work area the calls on graphs of edition 2 ask for (refusal 11): a caller cannot tell without walking the chains.
ghost use Rattle.std.specs.Prelude.{◌≡◌};
ghost use Rattle.theory.specs.Accepted.{edition2};
ghost use Rattle.abi.specs.Codes.{work_words};

use area::length::Area;

// Its words; 0 for a graph that is refused. The header says `uint64_t`, and there is no `From<usize>` for u64.
#[unsafe(no_mangle)]
pub extern "C" fn founded_wide_work_words(graph: &[u32]) -> u64
    ensures { result ≡ work_words edition2 graph.now }
{
    match checking::check(graph) {
        Ok(()) => u32::area_words(graph) as u64,
        Err(_) => 0,
    }
}
