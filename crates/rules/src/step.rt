// A step of a run: the call's number, a client, a cell and two numbers; what a call does not take is ignored.
// The call is a plain number, since a sheet may say any, and question 24 is asked of it when its turn comes.
#[derive(Clone, Copy)]
pub struct Step {
    pub call: u32,
    pub client: u32,
    pub cell: u32,
    pub first: u32,
    pub second: u32,
}
