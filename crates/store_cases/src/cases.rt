// Stores at work, each case with its outcome in its contract.
ghost use Rattle.std.specs.Prelude.{◌≡◌, ◌+◌, take, drop, Ok, Err};
ghost use Rattle.store.specs.Bytes.{blocks, spare};
ghost use Rattle.store.specs.Stores.{stored, least, write_answer, after_write};
ghost use Rattle.store.specs.declared.life.Fault.TheVariants.{OutOfRange, NoLife};

use store::{Cell, Fault, Fuse, Image, Row, Sector, Store, Window};

// A fuse of 1 on a row: the write is accepted, and then the read is refused.
pub fn burnt_out() -> Result<u32, Fault>
    ensures { result ≡ Err NoLife }
{
    let mut cells = [0, 0, 0];
    let mut s = Fuse::new(Row::new(&mut cells), 1);
    s.write(0, 5)?;
    s.read(0)
}

// A fuse that is renewed goes on, and the row below keeps what was written.
pub fn renewed() -> Result<u32, Fault>
    ensures { result ≡ Ok 5 }
{
    let mut cells = [0, 0, 0];
    let mut s = Fuse::new(Row::new(&mut cells), 1);
    s.write(0, 5)?;
    s.renew(1);
    s.read(0)
}

// Cell 2 of the window of 3 from cell 2 on is cell 4.
#[tactic(auto, unfolding(store::specs::Stores::part))]
pub fn shifted() -> Result<u32, Fault>
    ensures { result ≡ Ok 14 }
{
    let mut cells = [10, 11, 12, 13, 14];
    let mut s = Window::new(Row::new(&mut cells), 2, 3);
    s.read(2)
}

// A window that passes the end has no cell.
#[tactic(auto, unfolding(store::specs::Stores::part))]
pub fn no_cell() -> Result<u32, Fault>
    ensures { result ≡ Err OutOfRange }
{
    let mut cells = [10, 11, 12, 13, 14];
    let mut s = Window::new(Row::new(&mut cells), 3, 3);
    s.read(0)
}

// The cells that were lent are what the row held last.
pub fn given_back() -> u32
    ensures { result ≡ 7 }
{
    let mut cells = [1, 2, 3];
    let _ = Row::new(&mut cells).write(1, 7);
    cells[1]
}

// A write through a fuse of `life` on any store, which is lent: the store is as the write left it, and
// what it stands on is as it was.
pub fn write_fused<S: Store>(s: &mut S, life: u32, i: usize, v: S::Cell) -> Result<(), Fault>
    ensures answer { result ≡ write_answer (stored (S.Store.cells s.old) (least life (S.Store.life s.old))) i }
    ensures cells { S.Store.cells s.new ≡ (after_write (stored (S.Store.cells s.old) (least life (S.Store.life s.old))) i v).cells }
    ensures kept { S.Store.rest s.new ≡ S.Store.rest s.old }
{
    let mut fuse = Fuse::new(s, life);
    fuse.write(i, v)
}

// The same through a window below the fuse: the cells around the window are as they were too.
pub fn write_through<S: Store>(
    s: &mut S,
    first: usize,
    size: usize,
    life: u32,
    i: usize,
    v: S::Cell,
) -> Result<(), Fault>
    ensures before { take first (S.Store.cells s.new) ≡ take first (S.Store.cells s.old) }
    ensures beyond { drop (first + size) (S.Store.cells s.new) ≡ drop (first + size) (S.Store.cells s.old) }
    ensures kept { S.Store.rest s.new ≡ S.Store.rest s.old }
{
    let mut pile = Fuse::new(Window::new(s, first, size), life);
    pile.write(i, v)
}

// The same on an image: the sectors around the window and the bytes after the last whole sector are as
// they were in the lender's memory.
pub fn stamp(
    bytes: &mut [u8],
    first: usize,
    size: usize,
    life: u32,
    i: usize,
    v: Sector,
) -> Result<(), Fault>
    ensures before { take first (blocks 512 bytes.new) ≡ take first (blocks 512 bytes.old) }
    ensures beyond { drop (first + size) (blocks 512 bytes.new) ≡ drop (first + size) (blocks 512 bytes.old) }
    ensures spare { spare 512 bytes.new ≡ spare 512 bytes.old }
{
    let mut image = Image::new(bytes);
    write_through(&mut image, first, size, life, i, v)
}
