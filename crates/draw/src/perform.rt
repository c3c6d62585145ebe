use crate::answers::{Answer, Failure, refused};
use crate::desk::Desk;
use crate::hex::bytes_of;
use crate::words::{number, seat};
use sheet::ClosedSheet;
use std::alloc::AllocError;
use std::array;

impl Desk {
    /// Shapes the sheet.
    fn shape(&mut self, n: u16, k: u16) -> Result<Answer, Failure> {
        self.sheet.shape(n, k).map_err(refused)?;
        Ok(Answer::Done)
    }

    /// Closes the sheet, and opens it again at once.
    fn close(&self) -> Result<Answer, Failure> {
        let mut closed = ClosedSheet::empty();
        self.sheet.close(&mut closed).map_err(refused)?;
        Ok(Answer::Done)
    }

    /// Loads the strip that a word is in hexadecimal.
    fn load(&mut self, word: &str) -> Result<Answer, Failure> {
        let strip = bytes_of(self.heap, word)?;
        self.sheet.load(&strip).map_err(refused)?;
        Ok(Answer::Done)
    }

    /// The call of a line. No call but `load` has more than four words, so that of five the last tells whether there are more.
    fn perform(&mut self, line: &str) -> Result<Answer, Failure> {
        let mut words = line.split_whitespace();
        let call: [Option<&str>; 5] = array::from_fn(|_| words.next());
        match call {
            [Some("count"), None, ..] => Ok(Answer::Number(self.sheet.count())),
            [Some("close"), None, ..] => self.close(),
            [Some("load"), Some(word), ..] => self.load(word),
            [Some("shape"), Some(n), Some(k), None, ..] => self.shape(number(n)?, number(k)?),
            [Some("take"), Some(s), Some(p), None, ..] => self.take(seat(s)?, number(p)?),
            [Some("put"), Some(s), Some(p), None, ..] => self.put(seat(s)?, number(p)?),
            [Some("let_go"), Some(s), Some(p), None, ..] => self.let_go(seat(s)?, number(p)?),
            [Some(edit), Some(s), Some(p), Some(x), None] => {
                self.change(edit, seat(s)?, number(p)?, number(x)?)
            }
            _ => Err(Failure::NoCall),
        }
    }

    /// Performs the calls of all lines, and adds a line with its answer for each; an accepted solve has a second line, the
    /// certificate.
    pub(crate) fn perform_all(&mut self, calls: &str) -> Result<(), AllocError> {
        for line in calls.lines() {
            if line == "solve" {
                self.solve()?;
                continue;
            }
            match self.perform(line) {
                Ok(answer) => writeln!(self.text, "{answer}")?,
                Err(failure) => writeln!(self.text, "{failure}")?,
            }
        }
        Ok(())
    }
}
