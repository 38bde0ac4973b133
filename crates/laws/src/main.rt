// Prints in plain words what is proved of the rules, each time after the call whose contract states it.
#![tactic(auto)]

use std::io;

fn main(rt: HostRuntime) -> io::Result<()> {
    // at numbers, as a block map has them, and at sectors, as a disk image has them
    rules::consistent::<u32>();
    rules::consistent::<[u8; 512]>();
    println!(rt;
        "Whatever is done to a new fit site, by single calls and by runs, with any slip:"
    )?;
    println!(rt;
        "- each accepted read got the last accepted write of that cell, or the starting image's cell;"
    )?;
    println!(rt; "- the disk differs from the last writes only at unsent cells;")?;
    println!(rt;
        "- those are the cells dirty or in the journal of the client that holds the session;"
    )?;
    println!(rt; "- a clean copy as new as the server's mark is the disk's cell;")?;
    println!(rt; "- sites that start alike reply alike;")?;
    println!(rt; "- 8 means that the client is not there, 12 that the cell is not there.")?;
    let n = cases::cases_stand();
    println!(rt; "{n} worked cases come out as they are said to.")?;
    let n = cases::readings_stand();
    println!(rt; "So do {n} more that show how the rules are read.")?;
    cases::faults_shown();
    println!(rt; "It fails where the disk is written before its mark,")?;
    println!(rt; "where staleness is measured from the client's last session,")?;
    println!(rt; "and where a sweep drops dirty cells.")?;
    Ok(())
}
