// Loops over the pins of an occurrence or a module. A table has an entry for each byte, so that any wire has one.
ghost use Rattle.std.specs.Prelude.{◌≡◌, ℕ, ◌<◌, ◌≤◌, true, ◌&&◌, length, ◌==◌, nat_eq, nat_lt, slice_index};
ghost use Rattle.rules.specs.Refusals.{Judges, asked};
ghost use Rattle.rules.specs.Wires.{all, any, fresh, every, picked, drive, times};
ghost use Rattle.rules.specs.Judging.{times_due};
ghost use Rattle.rules.specs.Boards.{ahead};
ghost use Rattle.board.specs.WireTables.{bit, driven_by, reaches, fill, size_in};

use crate::bodies::Counts;
use rules::Refusal;

// Whether input `k` is in the set `mask`.
fn has_input(mask: u16, k: usize) -> bool
    requires { k < 16 }
    ensures { result ≡ bit mask k }
{
    (mask >> k) & 1 == 1
}

pub fn all_below(pins: &[u8], limit: u8) -> bool
    ensures { result ≡ all (λ w. nat_lt w limit) pins.now }
{
    pins.iter().all(|w| *w < limit)
}

// What is known of a module's wires: which are driven, and which of its inputs reach them.
// Stays: two arrays by wire: driving changes the one and reaching the other, and the driven are filled as a slice.
#[derive(Clone, Copy)]
pub struct WireTable {
    pub driven: [bool; 256],
    pub reach: [u16; 256],
}

// The module's inputs are driven, and no other wire.
fn inputs_driven(counts: Counts) -> [bool; 256]
    ensures { (w : ℕ) → driven_by result w ≡ nat_lt w counts.inputs }
{
    let mut driven = [false; 256];
    driven[..counts.inputs as usize].fill(true);
    driven
}

// Each input reaches itself.
fn inputs_reach(counts: Counts) -> [u16; 256]
    ensures { (w x : ℕ) → reaches result w x ≡ (nat_lt w counts.inputs && w == x) }
{
    let mut reach = [0; 256];
    for (i, set) in reach[..counts.inputs as usize].iter_mut().enumerate() {
        *set = 1 << i;
    }
    reach
}

impl WireTable {
    // The wires ahead of the module's first occurrence.
    pub fn of_inputs(counts: Counts) -> WireTable
        ensures driven { (w : ℕ) → driven_by result.driven w ≡ nat_lt w counts.inputs }
        ensures reach { (w x : ℕ) → reaches result.reach w x ≡ (nat_lt w counts.inputs && w == x) }
    {
        WireTable {
            driven: inputs_driven(counts),
            reach: inputs_reach(counts),
        }
    }

    // Whether each of the pins in the set `through` is driven.
    pub fn all_driven(&self, pins: &[u8], through: u16) -> bool
        requires { length pins.now ≤ 16 }
        ensures { result ≡ all (driven_by self.now.driven) (picked (bit through) pins.now) }
    {
        pins.iter()
            .enumerate()
            .filter(|(k, _)| has_input(through, *k))
            .all(|(_, w)| self.driven[*w as usize])
    }

    // The inputs that reach one of the pins in the set `through`.
    pub fn inputs_reaching(&self, pins: &[u8], through: u16) -> u16
        requires { length pins.now ≤ 16 }
        ensures { (x : ℕ) → bit result x ≡ any (λ w. reaches self.now.reach w x) (picked (bit through) pins.now) }
    {
        pins.iter()
            .enumerate()
            .filter(|(k, _)| has_input(through, *k))
            .fold(0, |mask, (_, w)| mask | self.reach[*w as usize])
    }

    // Drives the pins of the record at `place`, unless one is driven already or named twice.
    pub fn drive(&mut self, pins: &[u8], place: usize) -> Result<(), Refusal>
        ensures answer { Judges result (asked (fresh pins.now (driven_by self.old.driven)) (Refusal.Drive place)) (λ _. driven_by self.new.driven ≡ drive pins.now (driven_by self.old.driven)) }
        ensures reach { self.new.reach ≡ self.old.reach }
    {
        for w in pins {
            if self.driven[*w as usize] {
                return Err(Refusal::Drive { place });
            }
            self.driven[*w as usize] = true;
        }
        Ok(())
    }

    // Puts one set of inputs on all of the pins.
    pub fn put_reach(&mut self, pins: &[u8], mask: u16)
        ensures reach { reaches self.new.reach ≡ fill pins.now (bit mask) (reaches self.old.reach) }
        ensures driven { self.new.driven ≡ self.old.driven }
    {
        for w in pins {
            self.reach[*w as usize] = mask;
        }
    }

    // Whether each of the first `count` wires is driven.
    pub fn first_driven(&self, count: u8) -> bool
        ensures { result ≡ every count (driven_by self.now.driven) }
    {
        self.driven[..count as usize].iter().all(|d| *d)
    }
}

// How often `i` stands in a state list.
fn times_in(states: &[u8], i: usize) -> usize
    ensures { result ≡ times i states.now }
{
    states.iter().filter(|s| **s as usize == i).count()
}

// How often an occurrence of so many cells is due in the state list.
fn times_due(size: u16) -> usize
    ensures { result ≡ times_due size }
{
    usize::from(size > 0)
}

// Whether occurrence `i`, of so many cells, stands in a state list as often as it is due.
fn stands_as_due(states: &[u8], i: usize, size: u16) -> bool
    ensures { result ≡ (times i states.now == times_due size) }
{
    times_in(states, i) == times_due(size)
}

// Stays: the sizes with their count beside them; cut to it, they would need the same bound, and a cast of their length.
pub fn states_right(states: &[u8], sizes: &[u16; 64], count: u8) -> bool
    requires { count ≤ 64 }
    ensures { result ≡ (all (λ s. nat_lt s count) states.now && every count (λ i. nat_eq (times i states.now) (times_due (slice_index sizes.now i)))) }
{
    all_below(states, count)
        && sizes[..count as usize]
            .iter()
            .enumerate()
            .all(|(i, size)| stands_as_due(states, i, *size))
}

// How many of a module's cells lie ahead of those of occurrence `i`.
fn cells_ahead(states: &[u8], sizes: &[u16; 64], i: usize) -> u32
    requires few { length states.now ≤ 64 }
    requires inside { (k : ℕ) → k < length states.now → slice_index states.now k < 64 }
    ensures { result ≡ ahead (size_in sizes.now) states.now i }
{
    // Stays: as take_while, map and sum, it is left open that the index of each item of the chain is in range.
    let mut at = 0u32;
    for s in states {
        if *s as usize == i {
            return at;
        }
        at += sizes[*s as usize] as u32;
    }
    at
}

// Where the cells of each occurrence begin.
pub fn cell_starts(states: &[u8], sizes: &[u16; 64], count: usize) -> [u32; 64]
    requires few { (length states.now ≤ 64) × (count ≤ 64) }
    requires inside { (k : ℕ) → k < length states.now → slice_index states.now k < 64 }
    ensures { (i : ℕ) → i < count → slice_index result i ≡ ahead (size_in sizes.now) states.now i }
{
    let mut starts = [0u32; 64];
    for (i, start) in starts[..count].iter_mut().enumerate() {
        *start = cells_ahead(states, sizes, i);
    }
    starts
}
