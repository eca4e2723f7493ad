// The draw-sheet program: a draw sheet on standard input, its draw on standard output. Every byte that is printed is the proved library's;
// reading the sheet and writing the text, once each, are left to here.
#![tactic(auto)]

use lines::text::{OUTPUT, write_output};
use std::io;
use std::io::{Lock, Read, Write};

// The most that is read, a byte more than a sheet can have: input of so many bytes or more is taken as a sheet of so many, which is too
// long to be sound.
const MOST: u64 = 65536;

// A read or a write that fails, or memory that runs out, ends the program with its error.
fn main(rt: HostRuntime) -> io::Result<()> {
    let mut input = Vec::new(rt.alloc());
    rt.stdin().take(MOST).read_to_end(&mut input)?;
    let mut output = vec![in rt.alloc(); 0; OUTPUT]?;
    let count = write_output(&input, &mut output);
    let mut stdout = rt.stdout().lock();
    stdout.write_all(&output[..count])?;
    stdout.flush()
}
