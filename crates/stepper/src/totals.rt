// What all runs gave.
use crate::memory::Memory;
use crate::sample::Sample;

#[derive(Drop, Default)]
pub struct Totals {
    pub checksum: u64,
    pub count: u64,
    pub nanos: u128,
}

impl Totals {
    fn take(&mut self, value: u64) {
        let mixed = (self.checksum ^ value).wrapping_mul(0x9e37_79b9_7f4a_7c15);
        self.checksum = mixed.rotate_left(29);
    }

    fn take_tape<K: Sample>(&mut self, tape: &[K]) {
        for value in tape {
            self.take(value.code());
        }
    }

    fn take_counts(&mut self, counts: &[u32]) {
        for count in counts {
            self.take(u64::from(*count));
            self.count = self.count.wrapping_add(u64::from(*count));
        }
    }

    pub fn take_run<K: Sample>(&mut self, memory: &Memory<K>, nanos: u128) {
        self.take_tape(memory.tape.as_slice());
        self.take_counts(memory.counts.as_slice());
        self.nanos = self.nanos.wrapping_add(nanos);
    }
}
