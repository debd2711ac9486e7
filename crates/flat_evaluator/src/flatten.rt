// A board made flat. A place is a way down from the top to an occurrence; the top and each place of a module have wires of
// their own, and a module's inputs and outputs are joined with the wires outside.
use crate::fault::Fault;
use crate::file::{Module, Part, Use};
use crate::flat::{Cell, Flat, Gate, readers_of};
use crate::function::Function;
use crate::joints::{Joints, Names, Wires};
use std::alloc::Global;

// More places than any board has.
const MANY: usize = 1_000_000;

// The top, or the place of a module.
#[derive(Clone, Copy)]
struct Inside {
    module: usize,
    first_wire: usize,
    first_place: usize,
    holders: usize,
    depth: usize,
}

impl Inside {
    fn wires<'a>(&self, list: &'a Vec<usize>) -> Wires<'a> {
        Wires {
            first: self.first_wire,
            list: list.as_slice(),
        }
    }

    // Stays: beside `cell`: a gate has as many inputs as its pins, a cell one.
    fn gate(&self, names: &Names, function: Function, used: &Use) -> Gate {
        let mut wires = [0; 3];
        for (pin, wire) in wires.iter_mut().enumerate() {
            *wire = names.on_pin(self.wires(&used.pins.inputs), pin);
        }
        Gate {
            function,
            pins: used.pins.inputs.len(),
            wires,
            output: names.on_pin(self.wires(&used.pins.outputs), 0),
            holders: self.holders,
        }
    }

    fn cell(&self, names: &Names, used: &Use) -> Cell {
        Cell {
            input: names.on_pin(self.wires(&used.pins.inputs), 0),
            output: names.on_pin(self.wires(&used.pins.outputs), 0),
        }
    }
}

// An occurrence in an inside, by their numbers.
#[derive(Clone, Copy)]
struct Way {
    inside: usize,
    entry: usize,
}

// What is found on the way down, level by level. The places of one inside follow one another; at a place of a module stands the
// number of its inside, and at others none.
// Stays: lists by number: insides are found level by level, wires are numbered in that order, and a module may use one of a lower
// number. As a recursion over modules, wires have other numbers, only greater numbers can be used, and a long chain of modules takes
// much stack.
#[derive(Drop)]
struct Plan<'m> {
    modules: &'m [Module],
    insides: Vec<Inside>,
    places: Vec<Option<usize>>,
    joints: Joints,
}

pub fn flatten(heap: Global, modules: &[Module]) -> Result<Flat, Fault> {
    let mut plan = Plan {
        modules,
        insides: Vec::new(heap),
        places: Vec::new(heap),
        joints: Joints::new(heap),
    };
    plan.enter(0, 0, 1)?;
    for number in 0..MANY {
        if number >= plan.insides.len() {
            return plan.finish(heap);
        }
        plan.expand(number)?;
    }
    Err(Fault::Size)
}

impl<'m> Plan<'m> {
    fn module(&self, number: usize) -> Result<&'m Module, Fault> {
        self.modules.get(number).ok_or(Fault::File)
    }

    fn inside(&self, number: usize) -> Result<Inside, Fault> {
        self.insides.get(number).copied().ok_or(Fault::File)
    }

    // A module gets wires of its own.
    fn enter(&mut self, module: usize, holders: usize, depth: usize) -> Result<Inside, Fault> {
        let wires = self.module(module)?.wires;
        let inside = Inside {
            module,
            first_wire: self.joints.grow(wires)?,
            first_place: 0,
            holders,
            depth,
        };
        self.insides.push(inside)?;
        Ok(inside)
    }

    // The places right inside a module.
    fn expand(&mut self, number: usize) -> Result<(), Fault> {
        let first = self.places.len();
        if let Some(inside) = self.insides.get_mut(number) {
            inside.first_place = first;
        }
        let here = self.inside(number)?;
        for used in self.module(here.module)?.uses.iter() {
            let inner = match used.part {
                Part::Module(module) => Some(self.enter_use(&here, used, module)?),
                Part::Gate(_) | Part::Cell => None,
            };
            self.places.push(inner)?;
        }
        Ok(())
    }

    // The inside of an occurrence of a module, whose inputs and outputs are the wires on its pins.
    fn enter_use(&mut self, here: &Inside, used: &Use, number: usize) -> Result<usize, Fault> {
        let place = self.insides.len();
        let module = self.module(number)?;
        let holds = !module.states.is_empty();
        let holders = here.holders.saturating_add(usize::from(holds));
        let inner = self.enter(number, holders, here.depth.saturating_add(1))?;
        self.joints.join(
            here.wires(&used.pins.inputs),
            inner.wires(&module.pins.inputs),
        );
        self.joints.join(
            here.wires(&used.pins.outputs),
            inner.wires(&module.pins.outputs),
        );
        Ok(place)
    }

    // Stays: heap and names, as for the cells: there are names only when all wires are joined.
    fn gates(&self, heap: Global, names: &Names) -> Result<Vec<Gate>, Fault> {
        let mut gates = Vec::new(heap);
        for inside in self.insides.iter() {
            for used in self.module(inside.module)?.uses.iter() {
                if let Part::Gate(function) = used.part {
                    gates.push(inside.gate(names, function, used))?;
                }
            }
        }
        Ok(gates)
    }

    // The cells in the order of the state lists.
    fn cells(&self, heap: Global, names: &Names) -> Result<Vec<Cell>, Fault> {
        let mut cells = Vec::new(heap);
        let mut left = Vec::new(heap);
        self.push_states(0, &mut left)?;
        for _ in 0..MANY {
            let Some(way) = left.pop() else {
                return Ok(cells);
            };
            let inside = self.inside(way.inside)?;
            let Some(used) = self.module(inside.module)?.uses.get(way.entry) else {
                return Err(Fault::File);
            };
            match used.part {
                Part::Gate(_) => {}
                Part::Cell => cells.push(inside.cell(names, used))?,
                Part::Module(_) => self.push_states(self.place(&inside, way.entry), &mut left)?,
            }
        }
        Err(Fault::Size)
    }

    // The number of the inside at a place of a module.
    fn place(&self, inside: &Inside, entry: usize) -> usize {
        let place = inside.first_place.saturating_add(entry);
        self.places.get(place).copied().flatten().unwrap_or(0)
    }

    // The state list of a module, its first entry last, so that this one is taken first.
    fn push_states(&self, number: usize, left: &mut Vec<Way>) -> Result<(), Fault> {
        let module = self.module(self.inside(number)?.module)?;
        for entry in module.states.iter().rev() {
            left.push(Way {
                inside: number,
                entry: *entry,
            })?;
        }
        Ok(())
    }

    fn depth(&self) -> usize {
        self.insides
            .iter()
            .fold(0, |depth: usize, inside| depth.max(inside.depth))
    }

    // Each wire has to be driven exactly once.
    fn finish(&self, heap: Global) -> Result<Flat, Fault> {
        let top = self.module(0)?;
        let inside = self.inside(0)?;
        let names = self.joints.names(heap)?;
        let gates = self.gates(heap, &names)?;
        let flat = Flat {
            inputs: names.of_all(heap, inside.wires(&top.pins.inputs))?,
            outputs: names.of_all(heap, inside.wires(&top.pins.outputs))?,
            cells: self.cells(heap, &names)?,
            readers: readers_of(heap, gates.as_slice(), names.len())?,
            gates,
            places: self.places.len(),
            depth: self.depth(),
        };
        let drivers = flat.drivers(heap, names.len())?;
        if names.once_each(drivers.as_slice()) {
            Ok(flat)
        } else {
            Err(Fault::Drivers)
        }
    }
}
