// Tests of the signal kinds against tables that are computed here, without the kinds' own functions.
#![tactic(auto)]

#[cfg(test)]
mod tests {
    use gates::Gate;
    use signal::levels::Level;
    use signal::marks::Marks;
    use signal::{Signal, WithUnknown, evaluate};
    use std::alloc::{AllocError, Global};
    use std::process::Abort;
    use std::test::Fail;

    const BITS: [bool; 2] = [false, true];

    const LEVELS: [Level; 3] = [Level::Zero, Level::One, Level::Unknown];

    // Each gate with its outputs: bit 4a + 2b + c is the output for the inputs a, b and c.
    const GATES: [(Gate, u8); 11] = [
        (Gate::Low, 0b0000_0000),
        (Gate::High, 0b1111_1111),
        (Gate::Buf, 0b1111_0000),
        (Gate::Not, 0b0000_1111),
        (Gate::And, 0b1100_0000),
        (Gate::Or, 0b1111_1100),
        (Gate::Xor, 0b0011_1100),
        (Gate::Nand, 0b0011_1111),
        (Gate::Nor, 0b0000_0011),
        (Gate::Xnor, 0b1100_0011),
        (Gate::Pick, 0b1100_1010),
    ];

    fn output(outputs: u8, a: bool, b: bool, c: bool) -> bool {
        let of_a = if a { outputs >> 4 } else { outputs };
        let of_b = if b { of_a >> 2 } else { of_a };
        let of_c = if c { of_b >> 1 } else { of_b };
        of_c & 1 == 1
    }

    // Three of the values, in each way.
    fn triples<T: Copy>(heap: Global, values: &[T]) -> Result<Vec<(T, T, T)>, AllocError> {
        let mut all = Vec::new(heap);
        for a in values {
            for b in values {
                for c in values {
                    all.push((*a, *b, *c))?;
                }
            }
        }
        Ok(all)
    }

    #[test]
    fn bits(rt: HostRuntime) -> Result<(), Fail> {
        let all = triples(rt.alloc(), &BITS)?;
        for (gate, outputs) in GATES {
            for (a, b, c) in all.iter().copied() {
                assert_eq!(rt; evaluate(gate, a, b, c), output(outputs, a, b, c));
            }
        }
        assert_eq!(rt; true.told(), Some(true));
        assert_eq!(rt; false.told(), Some(false));
        Ok(())
    }

    fn can_be(level: Level, bit: bool) -> bool {
        match level {
            Level::Zero => !bit,
            Level::One => bit,
            Level::Unknown => true,
        }
    }

    // The level that every filling of the two inputs gives, or else unknown.
    fn filled(outputs: u8, v: Level, w: Level) -> Level {
        let some = |bit: bool| {
            BITS.iter().any(|a| {
                BITS.iter().any(|b| can_be(v, *a)
                    && can_be(w, *b)
                    && output(outputs, *a, *b, false) == bit)
            })
        };
        match (some(false), some(true)) {
            (true, false) => Level::Zero,
            (false, true) => Level::One,
            _ => Level::Unknown,
        }
    }

    fn expected_level(gate: Gate, outputs: u8, v: Level, w: Level, x: Level) -> Level {
        match (gate, v) {
            (Gate::Pick, Level::Zero) => x,
            (Gate::Pick, Level::One) => w,
            (Gate::Pick, Level::Unknown) => Level::Unknown,
            _ => filled(outputs, v, w),
        }
    }

    #[test]
    fn levels(rt: HostRuntime) -> Result<(), Fail> {
        let all = triples(rt.alloc(), &LEVELS)?;
        for (gate, outputs) in GATES {
            for (v, w, x) in all.iter().copied() {
                assert_eq!(rt;
                    evaluate(gate, v, w, x),
                    expected_level(gate, outputs, v, w, x)
                );
            }
        }
        assert_eq!(rt; Level::Zero.told(), Some(false));
        assert_eq!(rt; Level::One.told(), Some(true));
        assert_eq!(rt; Level::Unknown.told(), None);
        Ok(())
    }

    // Numbers that look random: each from the one before, by shifts and exclusive or.
    // Stays: the program `stepper` draws words in the same way, and a crate for three lines is no plainer.
    fn next(number: u64) -> u64 {
        let a = number ^ (number << 13);
        let b = a ^ (a >> 7);
        b ^ (b << 17)
    }

    fn bit(row: u64, place: u32) -> bool {
        row.rotate_right(place) & 1 == 1
    }

    // The 64 rows by single bits.
    fn expected_rows(outputs: u8, x: u64, y: u64, z: u64) -> u64 {
        (0..u64::BITS)
            .filter(|r| output(outputs, bit(x, *r), bit(y, *r), bit(z, *r)))
            .fold(0, |rows, r| rows | 1u64.rotate_left(r))
    }

    #[test]
    fn rows(rt: HostRuntime) {
        let mut x = 0x1234_5678_9abc_def1;
        for _ in 0..20 {
            let y = next(x);
            let z = next(y);
            for (gate, outputs) in GATES {
                assert_eq!(rt; evaluate(gate, x, y, z), expected_rows(outputs, x, y, z));
            }
            x = next(z);
        }
        for r in 0..u64::BITS {
            let one: u64 = 1 << r;
            assert_eq!(rt; one.told(), None);
            assert_eq!(rt; (!one).told(), None);
        }
        assert_eq!(rt; 0u64.told(), Some(false));
        assert_eq!(rt; u64::MAX.told(), Some(true));
    }

    // The marks of the inputs that the gate has.
    fn expected_marks(gate: Gate, x: u64, y: u64, z: u64) -> u64 {
        match gate {
            Gate::Low | Gate::High => 0,
            Gate::Buf | Gate::Not => x,
            Gate::Pick => x | y | z,
            _ => x | y,
        }
    }

    fn marked<K: Signal>(below: K, marks: u64) -> Marks<K> {
        Marks { below, marks }
    }

    #[test]
    fn marks_over_rows(rt: HostRuntime) {
        let mut x = 0x0fed_cba9_8765_4321;
        for _ in 0..20 {
            let y = next(x);
            let z = next(y);
            let p = next(z);
            let q = next(p);
            let r = next(q);
            for (gate, outputs) in GATES {
                let result = evaluate(gate, marked(x, p), marked(y, q), marked(z, r));
                assert_eq!(rt; result.below, expected_rows(outputs, x, y, z));
                assert_eq!(rt; result.marks, expected_marks(gate, p, q, r));
            }
            x = next(r);
        }
        for place in 0..u64::BITS {
            let mark: u64 = 1 << place;
            assert_eq!(rt; marked(0u64, mark).told(), None);
            assert_eq!(rt; marked(u64::MAX, mark).told(), None);
        }
        assert_eq!(rt; marked(0u64, 0).told(), Some(false));
        assert_eq!(rt; marked(u64::MAX, 0).told(), Some(true));
        assert_eq!(rt; marked(u64::MAX, 8).told(), None);
        assert_eq!(rt; marked(1u64, 0).told(), None);
    }

    #[test]
    fn marks_over_marks_over_levels(rt: HostRuntime) -> Result<(), Fail> {
        let all = triples(rt.alloc(), &LEVELS)?;
        for (gate, outputs) in GATES {
            for (v, w, x) in all.iter().copied() {
                let a = marked(marked(v, 1), 8);
                let b = marked(marked(w, 2), 16);
                let c = marked(marked(x, 4), 32);
                let result = evaluate(gate, a, b, c);
                assert_eq!(rt; result.below.below, expected_level(gate, outputs, v, w, x));
                assert_eq!(rt; result.below.marks, expected_marks(gate, 1, 2, 4));
                assert_eq!(rt; result.marks, expected_marks(gate, 8, 16, 32));
            }
        }
        assert_eq!(rt; marked(marked(Level::One, 0), 0).told(), Some(true));
        assert_eq!(rt; marked(marked(Level::One, 0), 8).told(), None);
        assert_eq!(rt; marked(marked(Level::One, 8), 0).told(), None);
        assert_eq!(rt; marked(marked(Level::Unknown, 0), 0).told(), None);
        Ok(())
    }

    fn untold<K: WithUnknown>() -> bool {
        K::unknown().told().is_none()
    }

    #[test]
    fn unknowns(rt: HostRuntime) {
        assert!(rt; untold::<Level>());
        assert!(rt; untold::<Marks<Level>>());
        assert!(rt; untold::<Marks<Marks<Level>>>());
    }

    // The constant and the method, as generic code reads them.
    fn check_letter<K: Signal>(rt: &impl Abort, letter: char) {
        assert_eq!(rt; K::LETTER, letter);
        assert_eq!(rt; K::kind_letter(), letter);
    }

    #[test]
    fn letters(rt: HostRuntime) {
        check_letter::<bool>(&rt, 'B');
        check_letter::<Level>(&rt, 'T');
        check_letter::<u64>(&rt, 'R');
        check_letter::<Marks<bool>>(&rt, 'M');
        check_letter::<Marks<Level>>(&rt, 'M');
        check_letter::<Marks<u64>>(&rt, 'M');
        check_letter::<Marks<Marks<Level>>>(&rt, 'M');
    }
}
