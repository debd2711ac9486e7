// Boards by chance, and boards at the limits.
use crate::dice::Dice;
use crate::made::{Made, Pins};
use crate::piece::{Piece, Primitive};
use crate::shape::{LONG, Shape};
use std::alloc::{AllocError, Global};

const MOST_DEPTH: usize = 8;

// The boards at a limit, and the others.
enum Sort {
    Empty,
    Toggle { outputs: usize },
    AllCells,
    AllPlaces,
    Deep,
    Long,
    Any,
}

impl From<usize> for Sort {
    fn from(number: usize) -> Sort {
        match number {
            0 => Sort::Empty,
            1 => Sort::Toggle { outputs: 1 },
            2 => Sort::Toggle { outputs: 0 },
            3 => Sort::AllCells,
            4 => Sort::AllPlaces,
            5 => Sort::Deep,
            6 => Sort::Long,
            _ => Sort::Any,
        }
    }
}

// The file of a board: the first few numbers are boards at a limit, and the others are any.
pub fn board_file(heap: Global, dice: &mut Dice, number: usize) -> Result<Vec<u8>, AllocError> {
    let mut made = Made::new(heap, dice, MOST_DEPTH);
    // Stays: the boards are made from different values, and a list of closures would name each of them a second time.
    match Sort::from(number) {
        Sort::Empty => made.single(0, &[])?,
        Sort::Toggle { outputs } => made.toggle(outputs)?,
        Sort::AllCells => made.all_cells()?,
        Sort::AllPlaces => made.all_places()?,
        Sort::Deep => made.deep(MOST_DEPTH)?,
        Sort::Long => made.any_modules(&LONG)?,
        Sort::Any => {
            let shape = Shape::any(made.dice);
            made.any_modules(&shape)?
        }
    }
    made.file()
}

// A board of so many levels.
pub fn deep_board(heap: Global, dice: &mut Dice, levels: usize) -> Result<Vec<u8>, AllocError> {
    let mut made = Made::new(heap, dice, levels);
    made.deep(levels)?;
    made.file()
}

impl Made<'_> {
    // One module with no inputs.
    fn single(&mut self, outputs: usize, pieces: &[(Piece, usize)]) -> Result<(), AllocError> {
        let pins = Pins { inputs: 0, outputs };
        self.module(0, pins, pieces)?;
        Ok(())
    }

    fn toggle(&mut self, outputs: usize) -> Result<(), AllocError> {
        self.single(
            outputs,
            &[(Primitive::Cell.into(), 1), (Primitive::Not.into(), 1)],
        )
    }

    // Each module uses the next one among gates and cells.
    fn deep(&mut self, levels: usize) -> Result<(), AllocError> {
        let pins = Pins {
            inputs: 3,
            outputs: 3,
        };
        let mut next = Primitive::Not.into();
        for number in (0..levels).rev() {
            let pieces = [
                (Primitive::Cell.into(), 2),
                (Primitive::Nand.into(), 3),
                (Primitive::Pick.into(), 1),
                (next, 1),
                (Primitive::Xor.into(), 3),
                (Primitive::Cell.into(), 2),
            ];
            next = self.module(number, pins, &pieces)?;
        }
        Ok(())
    }

    // 4,096 cells: 64 modules of 64 cells.
    fn all_cells(&mut self) -> Result<(), AllocError> {
        let row_pins = Pins {
            inputs: 4,
            outputs: 1,
        };
        let top_pins = Pins {
            inputs: 8,
            outputs: 16,
        };
        let row = self.module(1, row_pins, &[(Primitive::Cell.into(), 64)])?;
        self.module(0, top_pins, &[(row, 64)])?;
        Ok(())
    }

    // 65,535 places: 15 × (1 + 64 × (1 + 64)) + 48 × (1 + 64).
    fn all_places(&mut self) -> Result<(), AllocError> {
        let leaf_pins = Pins {
            inputs: 3,
            outputs: 1,
        };
        let branch_pins = Pins {
            inputs: 3,
            outputs: 2,
        };
        let top_pins = Pins {
            inputs: 8,
            outputs: 16,
        };
        let gates = [
            (Primitive::Nand.into(), 20),
            (Primitive::Xor.into(), 20),
            (Primitive::Pick.into(), 20),
            (Primitive::Cell.into(), 4),
        ];
        let leaf = self.module(2, leaf_pins, &gates)?;
        let branch = self.module(1, branch_pins, &[(leaf, 64)])?;
        self.module(0, top_pins, &[(branch, 15), (leaf, 48)])?;
        Ok(())
    }
}
