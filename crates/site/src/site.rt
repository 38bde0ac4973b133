// A site: a reference disk, its marks (the session in which each disk cell was last written), the clients'
// local stores, and the records.
use bank::Bank;
use records::table::Table;
use store::Store;

// One disk and its caches, over any stores with one kind of cell; the marks are numbers. (Clauses name what it
// means by `site_state`: a model of it would have to name its stores' ghost members, which a model cannot yet.)
#[derive(Drop)]
pub struct Site<D: Store, M: Store<Cell = u32>, B: Bank<Cell = D::Cell>> {
    disk: D,
    marks: M,
    bank: B,
    table: Table,
}

mod making;
mod operations;
mod run;
mod sweep;
mod work;
