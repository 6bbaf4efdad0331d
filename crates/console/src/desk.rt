use crate::command::Question;
use crate::picture::Picture;
use crate::{calls, show};
use search::RECORDS;
use solution::BYTES;
use std::alloc::{AllocError, Global};
use std::io;
use table::{Pair, Table};
use tester::Tester;

/// What is lent to calls: at most what a call can use, and one line of a buffer more, so that a longer one is declined as it should be.
#[derive(Drop)]
pub struct Desk {
    records: Vec<Pair>,
    buffer: Vec<u8>,
}

impl Desk {
    /// Records enough for a trial, and a buffer longer than the longest that a solution takes.
    pub fn new(heap: Global) -> Result<Desk, AllocError> {
        Ok(Desk {
            records: vec![in heap; Pair::FRESH; RECORDS]?,
            buffer: vec![in heap; b' '; BYTES + 8]?,
        })
    }

    /// Answers a question on the page. Of the records and the buffer, as much is lent as the question says.
    pub fn answer<G: Picture, T: Table>(
        &mut self,
        tester: &mut Tester<G, T>,
        page: &mut Vec<u8>,
        question: Question<'_>,
    ) -> io::Result<()> {
        match question {
            Question::Board => tester.game().draw(page),
            Question::Moves => show::moves(page, tester.game()),
            Question::Find(text) => calls::find(page, tester.game(), text),
            Question::Call(request, loan) => {
                let records = loan.records.min(self.records.len());
                let buffer = loan.buffer.min(self.buffer.len());
                calls::perform(
                    page,
                    tester,
                    request,
                    &mut self.records[..records],
                    &mut self.buffer[..buffer],
                )
            }
        }
    }
}
