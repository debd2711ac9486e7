// A case is a file and the verdict that is expected of it.
use crate::fault::Fault;
use crate::reader::Reader;
use crate::verdict::{Figures, Refused, Verdict};
use std::alloc::Global;

#[derive(Drop)]
pub struct Case {
    pub expected: Verdict,
    pub file: Vec<u8>,
}

// The files that cases are made of.
#[derive(Drop)]
pub struct Bases<'a> {
    heap: Global,
    files: Vec<&'a [u8]>,
}

impl<'a> Bases<'a> {
    pub(crate) fn read(heap: Global, bytes: &'a [u8]) -> Result<Bases<'a>, Fault> {
        let mut reader = Reader::new(bytes);
        let count = reader.number()?;
        Ok(Bases {
            heap,
            files: (0..count).map(|_| reader.block()).try_collect(heap)?,
        })
    }
}

// The cases that are still to come, each made of a base.
#[derive(Drop)]
pub struct Cases<'a> {
    bases: Bases<'a>,
    count: usize,
    reader: Reader<'a>,
}

impl<'a> Cases<'a> {
    pub(crate) fn new(bases: Bases<'a>, cases: &'a [u8]) -> Result<Cases<'a>, Fault> {
        let mut reader = Reader::new(cases);
        Ok(Cases {
            bases,
            count: reader.number()?,
            reader,
        })
    }

    pub(crate) fn count(&self) -> usize {
        self.count
    }

    // Whether nothing is behind the cases.
    pub(crate) fn end(&self) -> Result<(), Fault> {
        if self.reader.rest().is_empty() {
            Ok(())
        } else {
            Err(Fault::GoesOn)
        }
    }

    pub(crate) fn read(&mut self) -> Result<Case, Fault> {
        let number = self.reader.number()?;
        let expected = self.read_verdict()?;
        let base = *self.bases.files.get(number).ok_or(Fault::NoSuchBase)?;
        let file = self.rebuild(base)?;
        Ok(Case { expected, file })
    }

    fn read_verdict(&mut self) -> Result<Verdict, Fault> {
        let cases = &mut self.reader;
        let number = cases.byte()?;
        let place = cases.number()?;
        if number > 0 {
            return Ok(Err(Refused { number, place }));
        }
        Ok(Ok(Figures {
            modules: usize::from(cases.byte()?),
            cells: cases.number()?,
            places: cases.number()?,
            depth: usize::from(cases.byte()?),
        }))
    }

    // The base with the edits that come next.
    fn rebuild(&mut self, base: &[u8]) -> Result<Vec<u8>, Fault> {
        let mut left = Reader::new(base);
        let mut file = Vec::new(self.bases.heap);
        for _ in 0..self.reader.byte()? {
            self.edit(&mut left, &mut file)?;
        }
        file.extend_from_slice(left.rest())?;
        Ok(file)
    }

    // Some bytes are copied and some dropped, and a block is put there some times.
    fn edit(&mut self, left: &mut Reader<'_>, file: &mut Vec<u8>) -> Result<(), Fault> {
        let copied = self.reader.number()?;
        file.extend_from_slice(left.take(copied)?)?;
        let dropped = self.reader.number()?;
        left.take(dropped)?;
        let times = self.reader.number()?;
        let block = self.reader.block()?;
        for _ in 0..times {
            file.extend_from_slice(block)?;
        }
        Ok(())
    }
}
