// Runs a step sheet from standard input on a site of its own, and prints a line for each step.
#![tactic(auto)]

use play::play;
use std::io::{Read, Write};

fn main(rt: HostRuntime) -> anyhow::Result<()> {
    let mut sheet = Vec::new(rt.alloc());
    rt.stdin().read_to_end(&mut sheet)?;
    let printed = play(rt.alloc(), &sheet)?;
    rt.stdout().write_all(&printed)?;
    Ok(())
}
