// Document 01's cases C1 to C12 through `report`, as the program reads them.
#![tactic(auto)]

use arrayvec::ArrayVec;
use std::io;
use std::io::Write;

// What the program reads: a graph's words, the atom mask and the node mask.
struct Case {
    graph: &'static [u16],
    atom_never: &'static [u64],
    never: &'static [u64],
}

const CASES: [Case; 17] = [
    // C1
    Case {
        graph: &[1, 0, 0, 0, 0],
        atom_never: &[],
        never: &[],
    },
    // C2
    Case {
        graph: &[1, 2, 2, 2, 2, 1, 0, 0, 1, 1, 0, 2, 1, 1, 2, 0, 0, 1, 0],
        atom_never: &[0],
        never: &[0],
    },
    // C3: C2 and a fact for 0
    Case {
        graph: &[
            1, 2, 2, 3, 2, 1, 0, 0, 1, 1, 0, 2, 1, 1, 2, 0, 1, 0, 0, 1, 0,
        ],
        atom_never: &[0],
        never: &[0],
    },
    // C4: atom 0 cut
    Case {
        graph: &[
            1, 2, 2, 3, 2, 1, 0, 0, 1, 1, 0, 2, 1, 1, 2, 0, 1, 0, 0, 1, 0,
        ],
        atom_never: &[1],
        never: &[0],
    },
    // C5: node 0 cut
    Case {
        graph: &[
            1, 2, 2, 3, 2, 1, 0, 0, 1, 1, 0, 2, 1, 1, 2, 0, 1, 0, 0, 1, 0,
        ],
        atom_never: &[0],
        never: &[1],
    },
    // C6
    Case {
        graph: &[1, 1, 1, 1, 1, 1, 0, 0, 1, 1, 0, 0],
        atom_never: &[0],
        never: &[0],
    },
    // C7
    Case {
        graph: &[1, 1, 1, 1, 1, 2, 0, 0, 1, 1, 0, 0],
        atom_never: &[0],
        never: &[0],
    },
    // C8
    Case {
        graph: &[1, 1, 2, 2, 1, 1, 0, 0, 2, 0, 0, 1, 1, 2, 1, 0, 0],
        atom_never: &[0],
        never: &[0],
    },
    // C9
    Case {
        graph: &[1, 1, 2, 2, 1, 1, 0, 0, 3, 0, 0, 1, 1, 2, 1, 0, 0],
        atom_never: &[0],
        never: &[0],
    },
    // C10
    Case {
        graph: &[1, 1, 2, 2, 1, 1, 0, 0, 4, 0, 0, 1, 1, 2, 1, 0, 0],
        atom_never: &[0],
        never: &[0],
    },
    // C10 with node 1 cut
    Case {
        graph: &[1, 1, 2, 2, 1, 1, 0, 0, 4, 0, 0, 1, 1, 2, 1, 0, 0],
        atom_never: &[0],
        never: &[2],
    },
    // C11
    Case {
        graph: &[
            1, 2, 3, 1, 3, 1, 0, 0, 1, 1, 0, 3, 0, 1, 3, 3, 0, 2, 1, 0, 0, 0,
        ],
        atom_never: &[0],
        never: &[0],
    },
    // C11 with atom 1 cut
    Case {
        graph: &[
            1, 2, 3, 1, 3, 1, 0, 0, 1, 1, 0, 3, 0, 1, 3, 3, 0, 2, 1, 0, 0, 0,
        ],
        atom_never: &[2],
        never: &[0],
    },
    // C12
    Case {
        graph: &[1, 1, 1, 1, 1, 7, 0, 0, 1, 1, 0, 0],
        atom_never: &[0],
        never: &[0],
    },
    // C12 without heads
    Case {
        graph: &[1, 1, 1, 1, 0, 7, 0, 0, 1, 0],
        atom_never: &[0],
        never: &[0],
    },
    // C2 without its masks
    Case {
        graph: &[1, 2, 2, 2, 2, 1, 0, 0, 1, 1, 0, 2, 1, 1, 2, 0, 0, 1, 0],
        atom_never: &[],
        never: &[],
    },
    // nothing
    Case {
        graph: &[],
        atom_never: &[],
        never: &[],
    },
];

fn show(rt: &impl Print, case: &Case) -> io::Result<()> {
    let mut input = ArrayVec::<u8, 128>::new();
    for word in case.graph {
        input.write_all(&word.to_le_bytes())?;
    }
    for word in case.atom_never.iter().chain(case.never) {
        input.write_all(&word.to_le_bytes())?;
    }
    let mut out = [0u8; 6144];
    let written = report::report(input.as_slice(), &mut out);
    rt.write_all(&out[..written])
}

fn main(rt: HostRuntime) -> io::Result<()> {
    for case in &CASES {
        show(&rt, case)?;
    }
    Ok(())
}
