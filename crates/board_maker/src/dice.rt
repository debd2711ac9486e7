// Numbers by chance: the same ones from the same seed.
ghost use Rattle.std.specs.Prelude.{◌<◌, ◌≤◌, length, IsSome};

#[derive(Drop)]
pub struct Dice {
    state: u64,
}

impl Dice {
    pub fn new(seed: u64) -> Dice {
        Dice { state: seed }
    }

    pub fn word(&mut self) -> u64 {
        self.state = self.state.wrapping_add(0x9E37_79B9_7F4A_7C15);
        let mut z = self.state;
        z = (z ^ (z >> 30)).wrapping_mul(0xBF58_476D_1CE4_E5B9);
        z = (z ^ (z >> 27)).wrapping_mul(0x94D0_49BB_1331_11EB);
        z ^ (z >> 31)
    }

    // A number below the limit, or 0 where the limit is 0.
    pub fn below(&mut self, limit: usize) -> usize
        ensures { 0 < limit → result < limit }
    {
        let number = self.word() as usize;
        if limit == 0 { 0 } else { number % limit }
    }

    pub fn between(&mut self, least: usize, most: usize) -> usize
        ensures { least ≤ most → result ≤ most }
    {
        let span = most.saturating_sub(least).saturating_add(1);
        least.saturating_add(self.below(span))
    }

    pub fn chance(&mut self, percent: usize) -> bool {
        self.below(100) < percent
    }

    // Any of the items, unless there are none.
    pub(crate) fn one_of<'a, T>(&mut self, items: &'a [T]) -> Option<&'a T>
        ensures { 0 < length items.now → IsSome result }
    {
        items.get(self.below(items.len()))
    }

    // Puts the items into any order.
    pub(crate) fn shuffle<T>(&mut self, items: &mut [T]) {
        let last = items.len().saturating_sub(1);
        // Stays: each place is swapped with one behind it, so that an item alone is not enough.
        for place in 0..items.len() {
            let other = self.between(place, last);
            items.swap(place, other);
        }
    }
}
