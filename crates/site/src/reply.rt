// What a step of a run is answered.
ghost use Rattle.std.specs.Prelude.{◌≡◌, None};
ghost use Rattle.rules.specs.Replies.{accepted, refused, plain, open_reply, read_reply, noted_reply, plain_reply, swept_reply};
ghost use Rattle.site.specs.Steps.{as_reply};

use records::fault::SiteFault;
use records::records::Flush;
use rules::answer::{Answer, Source, Stopped};

// A step's answer, and the cell that an accepted read got.
#[derive(Clone, Copy)]
pub(crate) struct Done<C> {
    pub(crate) answer: Answer,
    pub(crate) got: Option<C>,
}

// Accepted, about the cell `place`.
fn accepted(place: u32, value: u32, source: u8) -> Answer
    ensures { result ≡ accepted place value source }
{
    Answer {
        number: 0,
        place,
        value,
        source,
        fault: None,
    }
}

// Refused, about the cell `place` unless the refusal names another.
fn refused(place: u32, value: u32, fault: SiteFault) -> Answer
    ensures { result ≡ refused place value fault }
{
    Answer {
        number: fault.into(),
        place: fault.place().unwrap_or(place),
        value,
        source: 0,
        fault: fault.held(),
    }
}

// An answer without a cell.
fn plain<C>(answer: Answer) -> Done<C>
    ensures { as_reply result ≡ plain answer }
{
    Done { answer, got: None }
}

// A step that is refused before it takes a slip up, or is no call.
pub(crate) fn no_reply<C>(fault: SiteFault) -> Done<C>
    ensures { as_reply result ≡ plain (refused 0 0 fault) }
{
    plain(refused(0, 0, fault))
}

// Each kind of result has its short function: one for all would have a closure for the value at each call.

// An open's value is the session.
pub(crate) fn open_reply<C>(r: Result<u32, SiteFault>) -> Done<C>
    ensures { as_reply result ≡ open_reply r }
{
    match r {
        Ok(session) => plain(accepted(0, session, 0)),
        Err(fault) => plain(refused(0, 0, fault)),
    }
}

// A read's cell and its source.
pub(crate) fn read_reply<C>(i: u32, r: Result<(C, Source), SiteFault>) -> Done<C>
    ensures { as_reply result ≡ read_reply i r }
{
    match r {
        Ok((v, source)) => Done {
            answer: accepted(i, 0, source.into()),
            got: Some(v),
        },
        Err(fault) => plain(refused(i, 0, fault)),
    }
}

// A begin's value is the turn; the slip was noted.
pub(crate) fn noted_reply<C>(i: u32, r: Result<Flush, SiteFault>) -> Done<C>
    ensures { as_reply result ≡ noted_reply i r }
{
    match r {
        Ok(flush) => plain(accepted(i, flush.turn, 0)),
        Err(fault) => plain(refused(i, 0, fault)),
    }
}

// A call about cell i, or about none (0).
pub(crate) fn plain_reply<C>(i: u32, r: Result<(), SiteFault>) -> Done<C>
    ensures { as_reply result ≡ plain_reply i r }
{
    match r {
        Ok(()) => plain(accepted(i, 0, 0)),
        Err(fault) => plain(refused(i, 0, fault)),
    }
}

// A sweep's value is the count of cells made absent, also where it stopped.
pub(crate) fn swept_reply<C>(r: Result<u32, Stopped>) -> Done<C>
    ensures { as_reply result ≡ swept_reply r }
{
    match r {
        Ok(count) => plain(accepted(0, count, 0)),
        Err(stopped) => plain(refused(stopped.place, stopped.value, stopped.fault)),
    }
}
