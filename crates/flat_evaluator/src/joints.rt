// Wires, of which some are joined to one.
use crate::fault::Fault;
use std::alloc::Global;

// For each wire one that it is joined to, itself where it stands for all of them.
// Stays: a wire has no name but its number, so what is known of each wire, here and in `Names`, is a Vec by that number.
#[derive(Drop)]
pub struct Joints {
    next: Vec<usize>,
}

// The wires of a module in a place are numbered from `first` on.
#[derive(Clone, Copy)]
pub struct Wires<'a> {
    pub first: usize,
    pub list: &'a [usize],
}

impl Joints {
    pub fn new(heap: Global) -> Joints {
        Joints {
            next: Vec::new(heap),
        }
    }

    // So many more wires, and the number of the first.
    pub fn grow(&mut self, wires: usize) -> Result<usize, Fault> {
        let first = self.next.len();
        self.next.extend(first..first.saturating_add(wires))?;
        Ok(first)
    }

    pub fn join(&mut self, outer: Wires<'_>, inner: Wires<'_>) {
        for (a, b) in outer.list.iter().zip(inner.list.iter()) {
            let from = self.name(outer.first.saturating_add(*a));
            let to = self.name(inner.first.saturating_add(*b));
            if let Some(next) = self.next.get_mut(from) {
                *next = to;
            }
        }
    }

    // The wire that stands for all that this one is joined to.
    // Stays: a wire may be joined to one of a greater number, so that no measure falls from one to the next.
    fn name(&self, wire: usize) -> usize {
        let mut name = wire;
        for _ in 0..self.next.len() {
            match self.next.get(name) {
                Some(next) if *next != name => name = *next,
                _ => break,
            }
        }
        name
    }

    pub fn names(&self, heap: Global) -> Result<Names, Fault> {
        Ok(Names {
            names: (0..self.next.len())
                .map(|wire| self.name(wire))
                .collect(heap)?,
        })
    }
}

// For each wire the one that stands for all that it is joined to.
#[derive(Drop)]
pub struct Names {
    names: Vec<usize>,
}

impl Names {
    pub fn len(&self) -> usize {
        self.names.len()
    }

    fn of(&self, wire: usize) -> usize {
        self.names.get(wire).copied().unwrap_or(0)
    }

    // The name of the wire on a pin.
    pub fn on_pin(&self, wires: Wires<'_>, pin: usize) -> usize {
        wires
            .list
            .get(pin)
            .map_or(0, |wire| self.of(wires.first.saturating_add(*wire)))
    }

    pub fn of_all(&self, heap: Global, wires: Wires<'_>) -> Result<Vec<usize>, Fault> {
        let names = (0..wires.list.len()).map(|pin| self.on_pin(wires, pin));
        Ok(names.collect(heap)?)
    }

    // Whether each wire, by its name, has the count 1.
    pub fn once_each(&self, counts: &[usize]) -> bool {
        self.names
            .iter()
            .all(|name| counts.get(*name).copied() == Some(1))
    }
}
