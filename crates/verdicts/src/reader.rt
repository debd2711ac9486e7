// Takes numbers and blocks from the front of some bytes.
use crate::fault::Fault;

// Stays: the flat evaluator has a reader of its own, since it is to share no code.
#[derive(Drop)]
pub struct Reader<'a> {
    rest: &'a [u8],
}

impl<'a> Reader<'a> {
    pub(crate) fn new(bytes: &'a [u8]) -> Reader<'a> {
        Reader { rest: bytes }
    }

    pub(crate) fn byte(&mut self) -> Result<u8, Fault> {
        let (first, rest) = self.rest.split_first().ok_or(Fault::EndsEarly)?;
        self.rest = rest;
        Ok(*first)
    }

    // Two bytes, the low one first.
    pub(crate) fn number(&mut self) -> Result<usize, Fault> {
        let (bytes, rest) = self.rest.split_first_chunk::<2>().ok_or(Fault::EndsEarly)?;
        self.rest = rest;
        Ok(usize::from(u16::from_le_bytes(*bytes)))
    }

    pub(crate) fn take(&mut self, count: usize) -> Result<&'a [u8], Fault> {
        let (taken, rest) = self.rest.split_at_checked(count).ok_or(Fault::EndsEarly)?;
        self.rest = rest;
        Ok(taken)
    }

    // A length, and as many bytes.
    pub(crate) fn block(&mut self) -> Result<&'a [u8], Fault> {
        let count = self.number()?;
        self.take(count)
    }

    pub(crate) fn rest(&self) -> &'a [u8] {
        self.rest
    }
}
