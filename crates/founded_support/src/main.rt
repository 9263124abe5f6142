// Reads a graph and its masks from standard input and writes their text (document 01, "The program").
//
// No contract can say what is read or written; `report` has the text as a definition of the bytes. What stands past the first 26,891 bytes changes
// nothing in it (`enough` of report/proofs/InputLaws), so that is all that is kept of a longer input.
#![tactic(auto)]

ghost use Rattle.std.specs.Prelude.{◌≤◌, length, IfOk};

use std::io;
use std::io::Read;

// Reads until `bytes` is full or the source ends, and returns how many bytes it put at the start. (`io::copy` asks for a block at a time, and of a longer packet, where standard
// input is a socket of packets, the rest is lost. How often the source must be asked is not known before, so this is no loop over a range.)
fn read_full<R: Read>(source: &mut R, bytes: &mut [u8]) -> io::Result<usize>
    ensures { IfOk result (λ n. n ≤ length bytes.new) }
{
    let mut done: usize = 0;
    while done < bytes.len() {
        let n = source.read(&mut bytes[done..])?;
        if n == 0 {
            return Ok(done);
        }
        done += n;
    }
    Ok(done)
}

fn main(rt: HostRuntime) -> io::Result<()> {
    let mut source = rt.stdin();
    let mut input = [0u8; 26891];
    let mut out = [0u8; 6144];
    let read = read_full(&mut source, &mut input)?;
    let written = report::report(&input[..read], &mut out);
    if read == input.len() {
        io::copy(&mut source, &mut io::sink())?;
    }
    rt.write_all(&out[..written])
}
