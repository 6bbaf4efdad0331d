use crate::command::{Command, Kind, Policy, Question};
use crate::desk::Desk;
use crate::picture::Picture;
use crate::show;
use chess::Chess;
use othello::Othello;
use std::alloc::{AllocError, Global};
use std::io;
use std::io::Write;
use table::{Newest, NoTable};
use tester::Tester;

/// A tester of the game, with a table of one of the policies.
#[derive(Drop)]
enum Seat<G: Picture> {
    None(Tester<G, NoTable>),
    Newest(Tester<G, Newest>),
}

impl<G: Picture> Seat<G> {
    fn none() -> Seat<G> {
        Seat::None(Tester::new(NoTable))
    }

    fn newest() -> Seat<G> {
        Seat::Newest(Tester::new(Newest::new()))
    }

    fn new(policy: Policy) -> Seat<G> {
        match policy {
            Policy::None => Seat::none(),
            Policy::Newest => Seat::newest(),
        }
    }

    fn answer(
        &mut self,
        desk: &mut Desk,
        page: &mut Vec<u8>,
        question: Question<'_>,
    ) -> io::Result<()> {
        match self {
            Seat::None(tester) => desk.answer(tester, page, question),
            Seat::Newest(tester) => desk.answer(tester, page, question),
        }
    }
}

/// A tester of one of the games.
#[derive(Drop)]
enum Made {
    Chess(Seat<Chess>),
    Othello(Seat<Othello>),
}

// A function pays at entry for the size of its locals, so each tester is made in a function of its own.
impl Made {
    fn chess(policy: Policy) -> Made {
        Made::Chess(Seat::new(policy))
    }

    fn othello(policy: Policy) -> Made {
        Made::Othello(Seat::new(policy))
    }

    fn new(kind: Kind, policy: Policy) -> Made {
        match kind {
            Kind::Chess => Made::chess(policy),
            Kind::Othello => Made::othello(policy),
        }
    }
}

/// The tester that was made last, and what is lent to its calls.
#[derive(Drop)]
pub struct Hall {
    made: Made,
    desk: Desk,
}

impl Hall {
    /// Before the first `make`: chess, with the newest policy.
    pub fn new(heap: Global) -> Result<Hall, AllocError> {
        Ok(Hall {
            made: Made::new(Kind::Chess, Policy::Newest),
            desk: Desk::new(heap)?,
        })
    }

    /// Makes a tester in place of the one before.
    // Not in `answer`: a function pays at entry for the size of its locals, and a tester that is made lies in one.
    fn make(&mut self, page: &mut Vec<u8>, kind: Kind, policy: Policy) -> io::Result<()> {
        self.made = Made::new(kind, policy);
        writeln!(page, "made {kind} {policy}")
    }

    /// Answers a command on the page.
    pub fn answer(&mut self, page: &mut Vec<u8>, command: Command<'_>) -> io::Result<()> {
        match command {
            Command::Make { kind, policy } => self.make(page, kind, policy),
            Command::Ask(question) => match &mut self.made {
                Made::Chess(seat) => seat.answer(&mut self.desk, page, question),
                Made::Othello(seat) => seat.answer(&mut self.desk, page, question),
            },
            Command::Help => show::help(page),
        }
    }
}
