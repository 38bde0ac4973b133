// The records of a site, in a plain table of fixed size.
use crate::fault::Unfit;
use crate::records::ClientRecord;
use std::marker::Model;

// Why the site is unfit, if it is; how many cells and clients it has; the latest session, and which client
// holds it, if any; and the clients' records, of which client 1 has the first. Clauses see it as the records that
// the rules speak of. (Its size is fixed, by the rules, and never asked of an allocator.)
#[derive(Drop)]
pub struct Table {
    unfit: Option<Unfit>,
    size: u32,
    count: u32,
    session: u32,
    holder: Option<u32>,
    clients: [ClientRecord; 8],
}

impl Model for Table {
    ghost use Rattle.records.specs.Records.{Records};

    ghost Value = { Records };

    ghost use Rattle.records.specs.Means.{records};
    ghost use Rattle.records.specs.Shape.{FixedSize};

    ghost view = { records };

    ghost invariant = { λ t. FixedSize t.clients };
}

mod changes;
mod client;
mod questions;
mod reading;
