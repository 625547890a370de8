// Reads terms.bin and returns.bin in the folder it runs in, and prints the contract's three values and its amounts at date 1.
#![tactic(auto)]

ghost use Rattle.std.specs.Prelude.{◌≤◌, length, IfOk};

use std::fs;
use std::io::{self, Read, Write};

// The start of a file, longer than any record or list that is accepted; none of it, where a shorter file can be read on behind its end.
fn start(rt: &HostRuntime, name: &str, bytes: &mut [u8]) -> io::Result<usize>
    ensures { IfOk result (λ n. n ≤ length bytes.new) }
{
    let mut file = fs::open(rt, name)?;
    let n = files::fill(&mut file, bytes)?;
    if n < bytes.len() && file.read(&mut [0u8; 1])? != 0 {
        return Ok(0);
    }
    Ok(n)
}

// That start; nothing of a file that is missing, can't be opened or can't be read to its end: what is valued is a whole file.
fn read<'a>(rt: &HostRuntime, name: &str, bytes: &'a mut [u8; 512]) -> &'a [u8]
    ensures { length result.now ≤ 512 }
{
    let n = start(rt, name, bytes).unwrap_or(0);
    &bytes[..n]
}

fn main(rt: HostRuntime) -> io::Result<()> {
    let mut terms = [0u8; 512];
    let mut returns = [0u8; 512];
    let terms = read(&rt, "terms.bin", &mut terms);
    let returns = read(&rt, "returns.bin", &mut returns);
    let mut work: [u64; 4096] = [0; 4096];
    let mut statics: [u16; 16384] = [0; 16384];
    let mut mixeds: [u16; 16384] = [0; 16384];
    let mut dynamics: [u16; 16384] = [0; 16384];
    let mut text = [0u8; 8192];
    let n = report::print(
        terms,
        returns,
        &mut work,
        &mut statics,
        &mut mixeds,
        &mut dynamics,
        &mut text,
    );
    rt.stdout().write_all(&text[..n])
}
