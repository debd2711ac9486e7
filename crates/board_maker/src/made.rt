// The modules of a board in the making.
use crate::dice::Dice;
use crate::maker::{Limits, Maker, Module};
use crate::piece::Piece;
use crate::writer::push_board;
use std::alloc::{AllocError, Global};

const MOST_BYTES: usize = 32_768;

const BOARD_BYTES: usize = 6;

const MOST_PLACES: usize = 65_535;

#[derive(Clone, Copy)]
pub struct Pins {
    pub inputs: usize,
    pub outputs: usize,
}

// The modules made so far, the last of the board first, how many bytes are left, and how deep the board may be.
#[derive(Drop)]
pub struct Made<'d> {
    heap: Global,
    pub dice: &'d mut Dice,
    pub modules: Vec<Module>,
    bytes: usize,
    depth: usize,
}

impl<'d> Made<'d> {
    pub fn new(heap: Global, dice: &'d mut Dice, depth: usize) -> Made<'d> {
        Made {
            heap,
            dice,
            modules: Vec::new(heap),
            bytes: MOST_BYTES - BOARD_BYTES,
            depth,
        }
    }

    // The module of the number begins, with its share of the bytes that are left.
    pub fn begin(&self, number: usize, inputs: usize, places: usize) -> Result<Maker, AllocError> {
        let share = self
            .bytes
            .checked_div(number.saturating_add(1))
            .unwrap_or(0);
        let limits = Limits {
            bytes: share,
            places,
            depth: self.depth,
        };
        Maker::new(self.heap, number, inputs, limits)
    }

    pub fn end(&mut self, maker: &Maker, outputs: usize) -> Result<Piece, AllocError> {
        let module = maker.finish(self.dice, outputs)?;
        let piece = module.piece;
        self.bytes = self.bytes.saturating_sub(module.records.len());
        self.modules.push(module)?;
        Ok(piece)
    }

    // A module of pieces, each so many times.
    pub fn module(
        &mut self,
        number: usize,
        pins: Pins,
        pieces: &[(Piece, usize)],
    ) -> Result<Piece, AllocError> {
        let mut maker = self.begin(number, pins.inputs, MOST_PLACES)?;
        for (piece, times) in pieces {
            maker.add_times(self.dice, piece, *times)?;
        }
        self.end(&maker, pins.outputs)
    }

    pub fn file(&self) -> Result<Vec<u8>, AllocError> {
        let mut bytes = Vec::new(self.heap);
        push_board(&mut bytes, self.modules.len())?;
        for module in self.modules.iter().rev() {
            bytes.extend_from_slice(module.records.as_slice())?;
        }
        Ok(bytes)
    }
}
