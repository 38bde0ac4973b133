// Reads a step sheet from standard input, at most 64 lines, and says what each line holds.
// A refused line is printed in columns, and ends the output.
#![tactic(auto)]

use rules::step::Step;
use sheet::{OutputLine, Reader};
use std::io;
use std::io::{Read, Write};

// Prints the numbers of one line, after the line's own.
fn print_step(out: &mut impl Write, line: usize, step: Step) -> io::Result<()> {
    let Step {
        call,
        client,
        cell,
        first,
        second,
    } = step;
    writeln!(
        out,
        "line {line}: call {call}, client {client}, cell {cell}, numbers {first} and {second}"
    )
}

// Prints a line in columns, and nothing where a number has too many digits for them. (Beside the like of it in
// `script`: that one puts the line into a vector, by a clause.)
fn print_output(out: &mut impl Write, line: OutputLine) -> io::Result<()> {
    let mut bytes = [0; 26];
    if line.put(&mut bytes).is_ok() {
        out.write_all(&bytes)?;
    }
    Ok(())
}

fn main(rt: HostRuntime) -> io::Result<()> {
    let mut text = Vec::new(rt.alloc());
    rt.stdin().read_to_end(&mut text)?;
    let mut out = rt.stdout();
    let mut reader = Reader::new(&text);
    for line in 1..=64 {
        match reader.next_line() {
            Ok(Some(fields)) => print_step(&mut out, line, Step::from(fields))?,
            Ok(None) => return Ok(()),
            Err(refusal) => return print_output(&mut out, OutputLine::from(refusal)),
        }
    }
    Ok(())
}
