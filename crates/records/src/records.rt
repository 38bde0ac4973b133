// What a client's record holds.

// What a client knows of a cell: absent, or kept with a mark (the session in which the server's cell was
// last written); whether it is checked against the server in this session; whether it is dirty. (Each changes for
// itself: a cell that becomes absent stays checked.)
#[derive(Clone, Copy, Default)]
pub struct CellRecord {
    pub kept: Option<u32>,
    pub checked: bool,
    pub dirty: bool,
}

// The plain numbers of a slip, the token that a begun flush gives out: whose flush, of which cell, and at
// which turn (the number of the flush among that client's).
#[derive(Clone, Copy)]
pub struct Flush {
    pub client: u32,
    pub cell: u32,
    pub turn: u32,
}

// A client's record: its cells, which cell is in the journal, the turn, and the note, a slip that a run
// has put aside.
#[derive(Clone, Copy)]
pub struct ClientRecord {
    pub cells: [CellRecord; 1024],
    pub journal: Option<u32>,
    pub turn: u32,
    pub note: Option<Flush>,
}
