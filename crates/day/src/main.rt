// A day of one site over sectors: two clients, a power cut between a mark and its disk cell, one after the disk
// cell was written, restarts, a hand-over, a stale copy that is fetched again; and two sites that answer alike.
// Every step is printed.
#![tactic(auto)]

use bank::{Bank, End};
use records::fault::SiteFault;
use records::records::Flush;
use rules::answer::Answer;
use rules::step::Step;
use site::{Calls, Returned, Site, Slip, run_both};
use std::io;
use std::marker::PhantomData;
use store::{Fuse, Image, Row, Sector, Store, Window};

// The number that is printed for an answer: 0 where it was accepted.
fn number(answer: Result<(), SiteFault>) -> u8 {
    answer.err().map_or(0, u8::from)
}

// A site, and where what is done to it is printed. (What cannot be printed is lost; the day goes on.)
#[derive(Drop)]
struct Day<'a, P, S> {
    out: &'a P,
    site: &'a mut S,
}

impl<P: Print, S: Calls<Cell = Sector>> Day<'_, P, S> {
    fn title(&self, what: &str) {
        let _ = println!(self.out; "{what}");
    }

    // Says what was done and how it ended.
    fn say(&self, client: u32, what: &str, cell: u32, answer: Result<(), SiteFault>) {
        let _ = match answer {
            Ok(()) => println!(self.out; "  client {client} {what} {cell}: done"),
            Err(fault) => println!(self.out; "  client {client} {what} {cell}: {fault}"),
        };
    }

    fn open(&mut self, client: u32) {
        match self.site.open(client) {
            Ok(session) => self.say(client, "opens session", session, Ok(())),
            Err(fault) => self.say(client, "opens a session", 0, Err(fault)),
        }
    }

    fn close(&mut self, client: u32) {
        let answer = self.site.close(client);
        if let Err(SiteFault::Unsent(cell)) = answer {
            self.say(client, "closes with unsent sector", cell, answer);
        } else {
            self.say(client, "closes, with unsent sectors", 0, answer);
        }
    }

    fn read(&mut self, client: u32, cell: u32) {
        let mut sector = [0; 512];
        match self.site.read(client, cell, &mut sector) {
            Ok(source) => {
                let byte = sector[0];
                let source = u8::from(source);
                let _ = println!(self.out;
                    "  client {client} reads sector {cell}: bytes of {byte}, from source {source}"
                );
            }
            Err(fault) => self.say(client, "reads sector", cell, Err(fault)),
        }
    }

    fn write(&mut self, client: u32, cell: u32, byte: u8) {
        let answer = self.site.write(client, cell, [byte; 512]);
        self.say(client, "writes to sector", cell, answer);
    }

    fn restart_server(&mut self, disk: u32, marks: u32) {
        let number = number(self.site.restart_server(disk, marks));
        let _ = println!(self.out;
            "  the server restarts, with a life of {disk} for the disk and {marks} for the marks: {number}"
        );
    }

    fn restart_client(&mut self, client: u32, life: u32) {
        let answer = self.site.restart_client(client, life);
        self.say(client, "restarts with a life of", life, answer);
    }

    // Commits a flush; the slip comes back where it is refused.
    fn try_commit(&mut self, slip: Slip) -> Option<Slip> {
        let Flush { client, cell, .. } = slip.flush();
        match self.site.commit(slip) {
            Ok(()) => {
                self.say(client, "commits sector", cell, Ok(()));
                None
            }
            Err(Returned { slip, fault }) => {
                self.say(client, "commits sector", cell, Err(fault));
                Some(slip)
            }
        }
    }

    // Commits a flush; a slip that comes back is tried again once the server is back, and then given up.
    fn commit(&mut self, slip: Slip) {
        let Some(back) = self.try_commit(slip) else {
            return;
        };
        self.restart_server(9, 9);
        let Some(again) = self.try_commit(back) else {
            return;
        };
        let Flush { client, cell, .. } = again.flush();
        let answer = self.site.give_up(again);
        self.say(client, "gives up the flush of sector", cell, answer);
    }

    // Begins a flush, lets the server lose power with these lives left, and commits.
    fn flush(&mut self, client: u32, cell: u32, lives: Option<(u32, u32)>) {
        let slip = match self.site.begin(client, cell) {
            Ok(slip) => slip,
            Err(fault) => return self.say(client, "begins to flush sector", cell, Err(fault)),
        };
        self.say(client, "begins to flush sector", cell, Ok(()));
        if let Some((disk, marks)) = lives {
            self.restart_server(disk, marks);
        }
        self.commit(slip);
    }

    fn morning(&mut self) {
        self.title("Morning: client 1 works, and the disk loses power between a mark and its cell");
        self.open(1);
        self.read(1, 2);
        self.write(1, 1, 5);
        self.read(1, 1);
        self.flush(1, 1, Some((0, 9)));
        self.title(
            "Client 1 loses power after the disk was written, and before its journal is empty",
        );
        self.restart_client(1, 4);
        self.write(1, 3, 6);
        self.flush(1, 3, None);
        self.restart_client(1, 99);
        self.read(1, 3);
        self.close(1);
        self.flush(1, 3, None);
        self.close(1);
    }

    fn afternoon(&mut self) {
        self.title("Afternoon: client 2 takes over");
        self.open(2);
        self.open(1);
        self.read(2, 1);
        self.read(2, 3);
        self.write(2, 2, 77);
        self.flush(2, 2, None);
        self.close(2);
        self.title("Evening: client 1 is back, and its copy of sector 2 is stale");
        self.open(1);
        self.read(1, 1);
        self.read(1, 2);
        self.read(1, 4);
        self.close(1);
    }
}

// The day of a site over sectors.
fn sectors(out: &impl Print, site: &mut impl Calls<Cell = Sector>) {
    let mut day = Day { out, site };
    day.morning();
    day.afternoon();
}

// Runs the same steps on two sites, and says of each step what both answered.
fn twins<S: Calls<Cell = u32>, T: Calls<Cell = u32>>(out: &impl Print, one: &mut S, other: &mut T) {
    let _ = println!(out; "Night: two sites over different stores take the same steps");
    let steps = [
        step(1, 1, 0),
        step(3, 1, 2),
        step(4, 1, 2),
        step(5, 1, 0),
        step(2, 1, 2),
        step(7, 1, 0),
    ];
    let given = [0, 42, 0, 0, 0, 0];
    let mut answers = [Answer::default(); 6];
    let mut answers2 = [Answer::default(); 6];
    let mut got = [0; 6];
    let mut got2 = [0; 6];
    let (first, second) = run_both(
        one,
        other,
        &steps,
        &given,
        &mut answers,
        &mut got,
        &mut answers2,
        &mut got2,
    );
    let _ = println!(out; "  the runs: {} and {}", number(first), number(second));
    let answered = answers.iter().zip(&answers2);
    let cells = got.iter().zip(&got2);
    for ((step, (answer, answer2)), (cell, cell2)) in steps.iter().zip(answered).zip(cells) {
        let _ = println!(out;
            "  call {}: answers {} and {}, cells got {cell} and {cell2}",
            step.call, answer.number, answer2.number,
        );
    }
}

fn step(call: u32, client: u32, cell: u32) -> Step {
    Step {
        call,
        client,
        cell,
        first: 0,
        second: 0,
    }
}

// A site over rows, and one over windows and fuses, that start alike: 3 cells, one client.
fn night(out: &impl Print) {
    let mut disk = [7; 3];
    let mut marks = [0; 3];
    let mut local = [0; 4];
    let bank = (Row::new(&mut local), End { cell: PhantomData });
    let mut one = Site::make(Row::new(&mut disk), Row::new(&mut marks), bank, 0);
    let mut wide = [7; 5];
    let mut marks2 = [0; 3];
    let mut local2 = [0; 6];
    let bank2 = (
        Window::new(Row::new(&mut local2), 1, 4),
        End { cell: PhantomData },
    );
    let mut other = Site::make(
        Window::new(Row::new(&mut wide), 2, 3),
        Row::new(&mut marks2),
        bank2,
        0,
    );
    twins(out, &mut one, &mut other);
}

fn main(rt: HostRuntime) -> io::Result<()> {
    let mut disk = [1u8; 2048];
    let mut marks = [0u32; 4];
    let mut first = [0u8; 2560];
    let mut second = [0u8; 2560];
    let end = End { cell: PhantomData };
    let bank = (
        Fuse::new(Image::new(&mut first), 99),
        (Fuse::new(Image::new(&mut second), 99), end),
    );
    let mut site = Site::make(
        Fuse::new(Image::new(&mut disk), 99),
        Fuse::new(Row::new(&mut marks), 99),
        bank,
        0,
    );
    sectors(&rt, &mut site);
    night(&rt);
    Ok(())
}
