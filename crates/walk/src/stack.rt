// A walk: the passes of its last level, modules entered and left.
ghost use Rattle.std.specs.Prelude.{◌≡◌, ℕ, ◌+◌, ◌-◌, ◌<◌, ◌≤◌, ◌≢◌, length, slice_set};
ghost use Rattle.board.specs.Lent.{board_in};
ghost use Rattle.flat.specs.Machine.{Machine, result as result_of};
ghost use Rattle.walk.specs.Levels.{placed, advanced, Enterable, Leavable};
ghost use Rattle.walk.specs.Shown.{StopFirst, StopSecond};
ghost use Rattle.walk.specs.declared.level.Pass.TheVariants.{Storing};

use crate::level::{Level, Pass};
use crate::reading::{Child, Module};
use crate::windows::{gate_output, hand_up, open};
use gates::Part;
use signal::Signal;

// A walk under way: the board's top, the lent memory, how many levels are in use, and how many gates were evaluated.
#[derive(Drop)]
pub(crate) struct Walk<'b, 'c, 'w, 'l, K> {
    pub(crate) top: Module<'b>,
    pub(crate) cells: &'c mut [K],
    pub(crate) work: &'w mut [K],
    pub(crate) levels: &'l mut [Level],
    pub(crate) depth: usize,
    pub(crate) count: u32,
    ghost size: { 1024 ≤ length work.now },
    ghost many: { 8 ≤ length levels.now },
}

// Stays: no ghost fields: a walk shows no machine between the writes of a wire and of its level's place, and has no level at its end.
impl<'b, 'c, 'w, 'l, K: Signal> Walk<'b, 'c, 'w, 'l, K> {
    ghost use Rattle.walk.specs.Walks.{last, above, ShownBy, Ready, LaterBy, AfterBy, SameMemory, EnteredAs, LeftAs, RisenAs};

    // Evaluates the gates and reads the cells from the last level's place on, up to a module that is to be entered.
    fn settle(&mut self) -> Option<Child<'b>>
        requires some { 0 < self.old.depth }
        requires pass { (last self.old).pass ≢ Storing }
        requires shown { Ready K.Signal.kind self.old }
        ensures same { SameMemory self.old self.new }
        ensures cells { self.new.cells.now ≡ self.old.cells.now }
        ensures depth { self.new.depth ≡ self.old.depth }
        ensures levels { self.new.levels.now ≡ slice_set self.old.levels.now (self.old.depth - 1) (placed (last self.old) (last self.new).place) }
        ensures stop { StopFirst (board_in self.new.top.tables) (last self.new) result }
        ensures runs { (M : Machine K) → ShownBy K.Signal.kind self.old M → LaterBy K.Signal.kind self.new M }
    {
        let last = self.depth - 1;
        let level = self.levels[last];
        let module = self.top.other(level.number);
        let places = module.records().counts.occurrences as usize;
        let cells = &mut *self.cells;
        let work = &mut *self.work;
        let levels = &mut *self.levels;
        let count = &mut self.count;
        for place in level.place..places {
            let o = module.occurrence(place);
            let value = match o.part {
                Part::Gate(gate) => {
                    *count += 1;
                    gate_output(gate, o.ins, &work[level.base..])
                }
                Part::Cell => cells[level.cell + module.first_cell(place)],
                Part::Module(number) => {
                    return Some(Child {
                        number,
                        ins: o.ins,
                        cell: level.cell + module.first_cell(place),
                    });
                }
            };
            work[level.base + o.outs[0] as usize] = value;
            levels[last].place = place + 1;
        }
        None
    }

    // Stores cells from the last level's entry of the state list on, up to a module that is to be entered.
    fn store(&mut self) -> Option<Child<'b>>
        requires some { 0 < self.old.depth }
        requires pass { (last self.old).pass ≡ Storing }
        requires shown { Ready K.Signal.kind self.old }
        ensures same { SameMemory self.old self.new }
        ensures work { self.new.work.now ≡ self.old.work.now }
        ensures depth { self.new.depth ≡ self.old.depth }
        ensures count { self.new.count ≡ self.old.count }
        ensures levels { self.new.levels.now ≡ slice_set self.old.levels.now (self.old.depth - 1) (advanced (last self.old) (last self.new).place (last self.new).cell) }
        ensures stop { StopSecond (board_in self.new.top.tables) (last self.new) result }
        ensures runs { (M : Machine K) → ShownBy K.Signal.kind self.old M → LaterBy K.Signal.kind self.new M }
    {
        let last = self.depth - 1;
        let level = self.levels[last];
        let module = self.top.other(level.number);
        let states = module.state_list();
        let cells = &mut *self.cells;
        let work = &mut *self.work;
        let levels = &mut *self.levels;
        let mut cell = level.cell;
        // Stays: the level keeps the place in the list, so a loop over the entries would number them and skip to that place.
        for place in level.place..states.len() {
            let o = module.occurrence(states[place] as usize);
            if let Part::Module(number) = o.part {
                return Some(Child {
                    number,
                    ins: o.ins,
                    cell,
                });
            }
            let value = work[level.base + o.ins[0] as usize];
            cells[cell] = value;
            cell += 1;
            levels[last].place = place + 1;
            levels[last].cell = cell;
        }
        None
    }

    // A new level for a module, whose window begins where the last level's ends.
    fn enter(&mut self, child: Child, pass: Pass)
        requires some { 0 < self.old.depth }
        requires room { self.old.depth < length self.old.levels.now }
        requires enterable { Enterable (board_in self.old.top.tables) (last self.old) child.number child.ins.now (length self.old.work.now) }
        ensures { EnteredAs K.Signal.kind self.old child.entry pass self.new }
    {
        let level = self.levels[self.depth - 1];
        let module = self.top.other(level.number);
        let start = level.base + module.records().counts.wires as usize;
        let wires = module.other(child.number).records().counts.wires as usize;
        open(self.work, level.base, child.ins, start, wires);
        self.levels[self.depth] = Level {
            number: child.number,
            place: 0,
            pass,
            base: start,
            cell: child.cell,
        };
        self.depth += 1;
    }

    // The outputs of the last level go to the one above it, which goes on.
    fn leave(&mut self)
        requires some { 1 < self.old.depth }
        requires there { self.old.depth ≤ length self.old.levels.now }
        requires leavable { Leavable (board_in self.old.top.tables) (last self.old) (above self.old) (length self.old.work.now) }
        ensures { LeftAs K.Signal.kind self.old self.new }
    {
        let last = self.depth - 1;
        let level = self.levels[last];
        let up = self.levels[last - 1];
        let outs = self.top.other(level.number).output_wires();
        let pins = self.top.other(up.number).occurrence(up.place).outs;
        hand_up(self.work, level.base, outs, up.base, pins);
        self.levels[last - 1].place = up.place + 1;
        self.depth = last;
    }

    // The level above goes on behind the cells of the last one.
    fn rise(&mut self)
        requires some { 1 < self.old.depth }
        requires there { self.old.depth ≤ length self.old.levels.now }
        requires small { (above self.old).place < 64 }
        ensures { RisenAs self.old self.new }
    {
        let last = self.depth - 1;
        let cell = self.levels[last].cell;
        let up = self.levels[last - 1];
        self.levels[last - 1] = Level {
            place: up.place + 1,
            cell,
            ..up
        };
        self.depth = last;
    }

    // The last level's first pass goes on: into a module, or at its end up to the level above, or over to its second pass.
    fn go_on(&mut self)
        requires some { 0 < self.old.depth }
        requires pass { (last self.old).pass ≢ Storing }
        requires shown { Ready K.Signal.kind self.old }
        ensures same { SameMemory self.old self.new }
        ensures runs { (M : Machine K) → ShownBy K.Signal.kind self.old M → AfterBy K.Signal.kind self.new M }
    {
        if let Some(child) = self.settle() {
            self.enter(child, Pass::ForOutputs);
            return;
        }
        let last = self.depth - 1;
        let level = self.levels[last];
        match level.pass {
            Pass::ForOutputs => self.leave(),
            Pass::ForBoth | Pass::Storing => {
                self.levels[last] = Level {
                    place: 0,
                    pass: Pass::Storing,
                    ..level
                };
            }
        }
    }

    // The last level's second pass goes on: into a module, or at its end up to the level above.
    fn store_on(&mut self)
        requires some { 0 < self.old.depth }
        requires pass { (last self.old).pass ≡ Storing }
        requires shown { Ready K.Signal.kind self.old }
        ensures same { SameMemory self.old self.new }
        ensures runs { (M : Machine K) → ShownBy K.Signal.kind self.old M → AfterBy K.Signal.kind self.new M }
    {
        if let Some(child) = self.store() {
            self.enter(child, Pass::ForBoth);
        } else if self.depth > 1 {
            self.rise();
        } else {
            self.depth = 0;
        }
    }

    // The last level goes on.
    fn turn(&mut self)
        requires some { 0 < self.old.depth }
        requires shown { Ready K.Signal.kind self.old }
        ensures same { SameMemory self.old self.new }
        ensures runs { (M : Machine K) → ShownBy K.Signal.kind self.old M → AfterBy K.Signal.kind self.new M }
    {
        match self.levels[self.depth - 1].pass {
            Pass::Storing => self.store_on(),
            Pass::ForBoth | Pass::ForOutputs => self.go_on(),
        }
    }

    // Goes on until no level is left.
    pub(crate) fn run(&mut self)
        requires { Ready K.Signal.kind self.old }
        ensures same { SameMemory self.old self.new }
        ensures ended { self.new.depth ≡ 0 }
        ensures runs { (M : Machine K) → ShownBy K.Signal.kind self.old M → (N : Machine K) × ShownBy K.Signal.kind self.new N × (result_of K.Signal.kind N ≡ result_of K.Signal.kind M) }
    {
        while self.depth > 0 {
            self.turn();
        }
    }
}
