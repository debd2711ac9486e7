// Modules by chance.
ghost use Rattle.std.specs.Prelude.{◌<◌, length};

use crate::dice::Dice;
use crate::made::Made;
use crate::maker::Maker;
use crate::piece::{Piece, Primitive};
use std::alloc::AllocError;

const CONSTANTS: [Primitive; 2] = [Primitive::Low, Primitive::High];

// The gates that have inputs.
const GATES: [Primitive; 9] = [
    Primitive::Buf,
    Primitive::Not,
    Primitive::And,
    Primitive::Or,
    Primitive::Xor,
    Primitive::Nand,
    Primitive::Nor,
    Primitive::Xnor,
    Primitive::Pick,
];

// How a board's modules are made: percents of module occurrences, of those the latest module, of cells among the rest.
#[derive(Clone, Copy)]
pub struct Shape {
    modules: usize,
    pins: usize,
    uses: usize,
    places: usize,
    nested: usize,
    latest: usize,
    cells: usize,
}

pub const LONG: Shape = Shape {
    modules: 64,
    pins: 16,
    uses: 64,
    places: 20_000,
    nested: 30,
    latest: 20,
    cells: 20,
};

impl Shape {
    pub fn any(dice: &mut Dice) -> Shape {
        let (modules, pins, uses, places) = match dice.below(10) {
            0..=5 => (5, 6, 10, 300),
            6..=8 => (16, 16, 24, 2000),
            _ => (64, 16, 64, 5000),
        };
        Shape {
            modules: dice.between(1, modules),
            pins: dice.between(1, pins),
            uses,
            places,
            nested: dice.between(0, 60),
            latest: dice.between(0, 90),
            cells: dice.between(5, 60),
        }
    }
}

impl Made<'_> {
    pub fn any_modules(&mut self, shape: &Shape) -> Result<(), AllocError> {
        for number in (0..shape.modules).rev() {
            self.any_module(number, shape)?;
        }
        Ok(())
    }

    fn any_module(&mut self, number: usize, shape: &Shape) -> Result<(), AllocError> {
        let inputs = self.dice.between(0, shape.pins);
        let mut maker = self.begin(number, inputs, shape.places)?;
        for _ in 0..self.dice.between(0, shape.uses) {
            self.add_any(&mut maker, shape)?;
        }
        let outputs = self.dice.between(0, shape.pins);
        self.end(&maker, outputs)?;
        Ok(())
    }

    // Adds any piece; a constant where that does not fit.
    fn add_any(&mut self, maker: &mut Maker, shape: &Shape) -> Result<(), AllocError> {
        let piece = self.any_piece(shape);
        if !maker.add(self.dice, &piece)? {
            let other = any_of(self.dice, &CONSTANTS);
            maker.add(self.dice, &other)?;
        }
        Ok(())
    }

    fn any_piece(&mut self, shape: &Shape) -> Piece {
        match self.any_used(shape) {
            Some(piece) if self.dice.chance(shape.nested) => piece,
            _ if self.dice.chance(shape.cells) => Primitive::Cell.into(),
            _ if self.dice.chance(10) => any_of(self.dice, &CONSTANTS),
            _ => any_of(self.dice, &GATES),
        }
    }

    // The piece that any module is, more often the latest.
    fn any_used(&mut self, shape: &Shape) -> Option<Piece> {
        let any = self.dice.one_of(self.modules.as_slice()).map(|m| m.piece);
        if self.dice.chance(shape.latest) {
            self.modules.last().map(|m| m.piece)
        } else {
            any
        }
    }
}

fn any_of(dice: &mut Dice, primitives: &[Primitive]) -> Piece
    requires { 0 < length primitives.now }
{
    let primitive = *dice.one_of(primitives).unwrap();
    primitive.into()
}
