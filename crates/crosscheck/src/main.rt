// Compares the library with a flat evaluator that shares no code with it, on boards by chance.
//
// crosscheck [BOARDS [SEED [FIRST]]]: so many boards from the first on, each on all kinds.
#![tactic(auto)]

mod choice;
mod kinds;
mod library;
mod report;
mod session;
mod view;

use crate::report::{Difference, Tallies};
use crate::session::Task;
use anyhow::anyhow;
use board::{Board, Figures, Refusal};
use board_maker::dice::Dice;
use board_maker::generator::{board_file, deep_board};
use flat_evaluator::fault::Fault;
use flat_evaluator::file::decode;
use flat_evaluator::flat::Flat;
use flat_evaluator::flatten::flatten;
use signal::levels::Level;
use signal::marks::Marks;
use std::alloc::Global;
use std::{env, fmt};

const BOARDS: usize = 400;

// As many steps as a run can have.
const ALL_CYCLES: usize = 65_535;

// Where the top's record begins in a file.
const TOP_PLACE: usize = 6;

// The most that a board had.
#[derive(Clone, Copy, Default)]
struct Largest {
    cells: usize,
    places: usize,
    depth: usize,
}

impl Largest {
    fn add(&mut self, figures: &Figures) {
        self.cells = self.cells.max(figures.cells);
        self.places = self.places.max(figures.places);
        self.depth = self.depth.max(figures.depth);
    }
}

impl fmt::Display for Largest {
    fn fmt<W: fmt::Write>(&self, f: &mut fmt::Formatter<W>) -> fmt::Result {
        let Largest {
            cells,
            places,
            depth,
        } = self;
        write!(f, "{cells} cells, {places} places, {depth} levels")
    }
}

// The toggle boards, 1 and 2 of `board_file`, run through all cycles, and on the others there are only calls of all sorts.
fn steps_of(number: usize) -> usize {
    match number {
        1 | 2 => ALL_CYCLES,
        _ => 0,
    }
}

fn figures_of(modules: usize, flat: &Flat) -> Figures {
    Figures {
        modules,
        inputs: flat.inputs.len(),
        outputs: flat.outputs.len(),
        cells: flat.cells.len(),
        places: flat.places,
        depth: flat.depth,
    }
}

// The boards of a seed, and what was compared on them.
#[derive(Drop)]
struct Comparison {
    heap: Global,
    seed: u64,
    tallies: Tallies,
    largest: Largest,
}

impl Comparison {
    fn new(heap: Global, seed: u64) -> Comparison {
        Comparison {
            heap,
            seed,
            tallies: Tallies::new(),
            largest: Largest::default(),
        }
    }

    fn compare_board(&mut self, number: usize) -> Result<(), Fault> {
        let heap = self.heap;
        let mut dice = Dice::new(
            self.seed
                .wrapping_mul(1_000_003)
                .wrapping_add(number as u64),
        );
        let file = board_file(heap, &mut dice, number)?;
        let modules = decode(heap, file.as_slice())?;
        let flat = flatten(heap, modules.as_slice())?;
        let figures = figures_of(modules.len(), &flat);
        self.largest.add(&figures);
        let Ok(board) = Board::read(file.as_slice()) else {
            self.tallies.bits.differ(Difference::Verdict);
            return Ok(());
        };
        if board.figures() != figures {
            self.tallies.bits.differ(Difference::Figures);
        }
        let task = Task {
            heap,
            number,
            board: &board,
            flat: &flat,
            figures,
            steps: steps_of(number),
        };
        self.compare_kinds(&task, &mut dice)
    }

    // Stays: a kind is a type, and no loop or closure goes over types, so that each kind has a call of its own.
    fn compare_kinds(&mut self, task: &Task<'_, '_, '_>, dice: &mut Dice) -> Result<(), Fault> {
        let tallies = &mut self.tallies;
        task.compare::<bool>(dice, &mut tallies.bits)?;
        task.compare::<Level>(dice, &mut tallies.levels)?;
        task.compare::<u64>(dice, &mut tallies.rows)?;
        task.compare::<Marks<bool>>(dice, &mut tallies.marked_bits)?;
        task.compare::<Marks<Level>>(dice, &mut tallies.marked_levels)
    }

    // A board of nine levels is to be refused for its size, in the top's record.
    fn compare_nine_levels(&mut self) -> Result<(), Fault> {
        let mut dice = Dice::new(self.seed);
        let file = deep_board(self.heap, &mut dice, 9)?;
        let refusal = board::judge(file.as_slice()).err();
        if refusal != Some(Refusal::Size { place: TOP_PLACE }) {
            self.tallies.bits.differ(Difference::Depth);
        }
        Ok(())
    }
}

#[derive(Clone, Copy)]
struct Words {
    boards: usize,
    seed: u64,
    first: usize,
}

fn read_words(rt: &HostRuntime) -> anyhow::Result<Words> {
    let mut given = env::args(rt)?;
    let _program = given.next();
    Ok(Words {
        boards: number_in(given.next(), BOARDS)?,
        seed: number_in(given.next(), 0)? as u64,
        first: number_in(given.next(), 0)?,
    })
}

fn number_in(word: Option<String>, default: usize) -> anyhow::Result<usize> {
    match word {
        Some(text) => Ok(text.parse::<usize>()?),
        None => Ok(default),
    }
}

fn run(rt: &HostRuntime) -> anyhow::Result<()> {
    let words = read_words(rt)?;
    let mut comparison = Comparison::new(rt.alloc(), words.seed);
    for number in words.first..words.first.saturating_add(words.boards) {
        comparison.compare_board(number)?;
    }
    println!(rt; "boards to {}", comparison.largest)?;
    comparison.compare_nine_levels()?;
    comparison.tallies.show(rt)?;
    let boards = words.boards;
    let differences = comparison.tallies.differences();
    println!(rt; "{boards} boards, {differences} differences")?;
    if differences > 0 {
        return Err(anyhow!("the library and the flat evaluator differ"));
    }
    Ok(())
}

fn main(rt: HostRuntime) -> anyhow::Result<()> {
    run(&rt)
}
