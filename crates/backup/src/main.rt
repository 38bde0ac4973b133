// Backs up part of a disk image while both ends lose power, and prints all that it did.
#![tactic(auto)]

use std::io;
use store::{Cell, Fault, Fuse, Image, Row, Sector, Store, Window};
use transfer::{Side, Stop, copy, copy_cell};

fn print_fault(rt: &impl Print, what: &str, i: usize, fault: Fault) -> io::Result<()> {
    let number = u8::from(fault);
    println!(rt; "  {what} {i}: refused by {number}, {fault}")
}

fn print_stop(rt: &impl Print, stop: Stop) -> io::Result<()> {
    let what = match stop.side {
        Side::Source => "read cell",
        Side::Target => "write cell",
    };
    print_fault(rt, what, stop.at, stop.fault)
}

// Writes sectors with a byte of their own, up to one past the end.
fn fill(rt: &impl Print, image: &mut impl Store<Cell = Sector>) -> io::Result<()> {
    for (i, byte) in (0..=image.count()).zip(11u8..=255) {
        match image.write(i, [byte; 512]) {
            Ok(()) => println!(rt; "  write sector {i}: 512 bytes of {byte}")?,
            Err(fault) => print_fault(rt, "write sector", i, fault)?,
        }
    }
    Ok(())
}

// A copy from one store to another that prints all that it does.
#[derive(Drop)]
struct Copying<'a, P, A, B> {
    rt: &'a P,
    from: A,
    to: B,
}

impl<'a, P: Print, A: Store, B: Store<Cell = A::Cell>> Copying<'a, P, A, B> {
    // Copies cell by cell, and says where to resume.
    fn copy_aloud(&mut self) -> io::Result<usize> {
        let n = self.from.count();
        for i in 0..n {
            match copy_cell(&mut self.from, &mut self.to, i) {
                Ok(()) => println!(self.rt; "  cell {i}: copied")?,
                Err(stop) => {
                    print_stop(self.rt, stop)?;
                    return Ok(stop.at);
                }
            }
        }
        Ok(n)
    }

    // Gives one side new life. (Both are methods, since a store that is lent out of a field gets no proof.)
    fn renew_source(&mut self, n: u32) {
        self.from.renew(n);
    }

    fn renew_target(&mut self, n: u32) {
        self.to.renew(n);
    }

    // Resumes a copy at a cell.
    fn resume(&mut self, start: usize) -> io::Result<()> {
        match copy(&mut self.from, &mut self.to, start) {
            Ok(()) => println!(self.rt; "  cells from {start} on: copied"),
            Err(stop) => print_stop(self.rt, stop),
        }
    }
}

impl<'a, P: Print, A: Store, B: Store<Cell = A::Cell>> Copying<'a, P, A, B>
where
    A::Cell: PartialEq,
{
    // Whether cell i is the same in both.
    fn agree(&mut self, i: usize) -> Result<bool, Fault> {
        Ok(self.from.read(i)? == self.to.read(i)?)
    }

    // Reads both stores, and says of each cell whether they agree.
    fn verify(&mut self) -> io::Result<()> {
        for i in 0..self.from.count() {
            match self.agree(i) {
                Ok(true) => println!(self.rt; "  cell {i}: the same")?,
                Ok(false) => println!(self.rt; "  cell {i}: DIFFERENT")?,
                Err(fault) => print_fault(self.rt, "read cell", i, fault)?,
            }
        }
        Ok(())
    }
}

// Three sectors of the image, from sector 1 on, under fuses that blow on the way.
fn back_up_image(rt: &impl Print, source: &mut [u8], target: &mut [u8]) -> io::Result<()> {
    let mut image = Image::new(source);
    let mut backup = Image::new(target);
    println!(rt; "Making the image")?;
    fill(rt, &mut image)?;
    let from = Fuse::new(Window::new(&mut image, 1, 3), 5);
    let to = Window::new(Fuse::new(&mut backup, 2), 1, 3);
    let mut copying = Copying { rt, from, to };
    println!(rt; "Copying sectors 1 to 3, with a life of 5 on the source and 2 on the target")?;
    let at = copying.copy_aloud()?;
    copying.renew_target(9);
    println!(rt; "The target is renewed with 9, and the copy resumes")?;
    copying.resume(at)?;
    copying.renew_source(9);
    println!(rt; "The source is renewed with 9, and the copy is verified")?;
    copying.verify()
}

// The image's block map, as numbers.
fn back_up_map(rt: &impl Print) -> io::Result<()> {
    let mut map = [7, 0, 4294967295, 12];
    let mut saved = [u32::blank(); 4];
    let from = Row::new(&mut map);
    let to = Row::new(&mut saved);
    let mut copying = Copying { rt, from, to };
    println!(rt; "Copying the block map, 4 numbers")?;
    copying.resume(0)?;
    copying.verify()
}

// Of each sector its first byte, and of the bytes after the last sector how many are still 255.
fn print_around(rt: &impl Print, bytes: &mut [u8]) -> io::Result<()> {
    let spare = bytes.iter().skip(2560).filter(|b| **b == 255).count();
    let mut image = Image::new(bytes);
    println!(rt; "The backup, sector by sector")?;
    for i in 0..image.count() {
        match image.read(i) {
            Ok(sector) => println!(rt; "  sector {i}: bytes of {}", sector[0])?,
            Err(fault) => print_fault(rt, "read sector", i, fault)?,
        }
    }
    println!(rt; "  after the last sector: {spare} bytes as they were")
}

fn main(rt: HostRuntime) -> io::Result<()> {
    let mut source = [0u8; 2648];
    let mut target = [255u8; 2648];
    back_up_image(&rt, &mut source, &mut target)?;
    print_around(&rt, &mut target)?;
    back_up_map(&rt)
}
