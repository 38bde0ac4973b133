// A store on bytes that are lent.
ghost use Rattle.std.specs.Prelude.{◌≡◌, ℕ, List};
ghost use Rattle.std.specs.Borrow.{GName};
ghost use Rattle.store.specs.Stores.{endless, read_answer, write_answer, after_write};
ghost use Rattle.store.specs.Bytes.{blocks, spare};
ghost use Rattle.store.specs.declared.life.Life.TheVariants.{Endless};

use crate::cell::{Cell, Sector};
use crate::life::Fault;
use crate::store::Store;

// Sectors of 512 bytes; its life is endless. The bytes after the last whole sector are never touched.
#[derive(Drop)]
pub struct Image<'a> {
    bytes: &'a mut [u8],
}

impl<'a> Image<'a> {
    // The image on these bytes.
    pub fn new(bytes: &'a mut [u8]) -> Image<'a>
        ensures { (result.bytes.now ≡ bytes.old) × (result.bytes.ghost_name ≡ bytes.entry.ghost_name) }
    {
        Image { bytes }
    }

    // By `&self`, so that the bytes are known to be as they were.
    fn get(&self, i: usize) -> Result<Sector, Fault>
        ensures { result ≡ read_answer (endless (blocks 512 self.now.bytes.now)) i }
    {
        get_sector(self.bytes, i)
    }
}

impl<'a> Store for Image<'a> {
    type Cell = Sector;

    ghost cells = { λ s. blocks 512 s.bytes.now };

    ghost life = { λ _. Endless };

    // which bytes are lent, and those after the last whole sector
    ghost Rest = { GName × List ℕ };

    ghost rest = { λ s. (s.bytes.ghost_name, spare 512 s.bytes.now) };

    #[tactic(auto, using(crate::proofs::Blocks::length_blocks))]
    fn count(&self) -> usize {
        self.bytes.len() / 512
    }

    fn read(&mut self, i: usize) -> Result<Sector, Fault> {
        self.get(i)
    }

    fn write(&mut self, i: usize, v: Sector) -> Result<(), Fault> {
        put_sector(self.bytes, i, v)
    }

    fn renew(&mut self, _n: u32) {}
}

// The 512 bytes from byte 512 * i on. (As a row's, a function of the bytes. By `*` and not `copied`, which would copy
// them twice.)
#[tactic(auto, unfolding(crate::specs::Bytes::blocks))]
fn get_sector(bytes: &[u8], i: usize) -> Result<Sector, Fault>
    ensures { result ≡ read_answer (endless (blocks 512 bytes.now)) i }
{
    let (sectors, _) = bytes.as_chunks::<512>();
    Ok(*sectors.get(i).ok_or(Fault::OutOfRange)?)
}

// Puts v in their place.
#[tactic(auto, using(crate::proofs::Blocks::put))]
fn put_sector(bytes: &mut [u8], i: usize, v: Sector) -> Result<(), Fault>
    ensures answer { result ≡ write_answer (endless (blocks 512 bytes.old)) i }
    ensures after { endless (blocks 512 bytes.new) ≡ after_write (endless (blocks 512 bytes.old)) i v }
    ensures kept { spare 512 bytes.new ≡ spare 512 bytes.old }
{
    if i >= bytes.len() / 512 {
        return Err(Fault::OutOfRange);
    }
    // not by `as_chunks_mut` or `get_mut`, which say nothing of what the bytes end as
    let at = 512 * i;
    bytes[at..at + 512].copy_from_slice(&v);
    Ok(())
}
