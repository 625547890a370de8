// The test program: reads script.txt in the folder it runs in, a line an operation, and prints an answer for each. The script
// and the answers expected of it are the second program's. It is no part of the product, so its contracts are modest.
#![tactic(auto)]

ghost use Rattle.std.specs.Prelude.{◌≤◌, length, IfOk};

use script::{Desk, Held, Table};
use std::fs::File;
use std::io::{Stdout, Write};
use std::{fs, io};

// More pieces of a file than a script has: a reader may never end, so they are counted.
const PIECES: usize = 4096;

// Answers the lines that are whole, and tells how much of the text is left behind them.
fn lines(out: &mut Stdout, text: &[u8], desk: &mut Desk) -> io::Result<usize>
    ensures { IfOk result (λ left. left ≤ length text.now) }
{
    let mut rest = text;
    while let Some(end) = rest.iter().position(|b| *b == b'\n') {
        out.write_all(desk.answer(&rest[..end]).as_str().as_bytes())?;
        rest = &rest[end + 1..];
    }
    Ok(rest.len())
}

fn run(file: &mut File, out: &mut Stdout, text: &mut [u8], desk: &mut Desk) -> io::Result<()> {
    // A line that is not whole yet is held at the start of the text.
    let mut held = 0;
    for _ in 0..PIECES {
        let n = held + files::fill(file, &mut text[held..])?;
        if n == held {
            return Ok(());
        }
        let left = lines(out, &text[..n], desk)?;
        text.copy_within(n - left..n, 0);
        held = left;
    }
    Ok(())
}

fn main(rt: HostRuntime) -> io::Result<()> {
    let Ok(mut file) = fs::open(&rt, "script.txt") else {
        return Ok(());
    };
    let mut text = [0u8; 65536];
    let mut work: [u64; 65536] = [0; 65536];
    let mut entries: [u16; 65536] = [0; 65536];
    let held = Held {
        entries: 0,
        room: 65536,
    };
    let table = Table {
        entries: &mut entries[..],
        held,
    };
    let mut desk = Desk {
        work: &mut work[..],
        table,
    };
    run(&mut file, &mut rt.stdout(), &mut text, &mut desk)
}
