// Signal kinds: what a wire can carry, with one set of rules for all of them, and the gates on any kind.
#![tactic(auto)]

ghost use Rattle.std.specs.Prelude.{◌≡◌, [], ◌∷◌};
ghost use Rattle.signal.specs.Cases.{Cases};
ghost use Rattle.signal.specs.GateValues.{gate_value, GatesOnBits, GatesStand};
ghost use Rattle.signal.specs.Kinds.{AdmitsBoth, Kind, Lawful};

use gates::Gate;

pub mod bits;
pub mod levels;
pub mod marks;
pub mod rows;

pub trait Signal: Copy {
    // The letter that names the kind: B, T, R or M.
    const LETTER: char;

    ghost kind: { Kind Self };

    fn kind_letter() -> char
        ensures { result ≡ kind.letter };

    fn low() -> Self
        ensures { result ≡ kind.low };

    fn high() -> Self
        ensures { result ≡ kind.high };

    fn not(self) -> Self
        ensures { result ≡ kind.not self };

    fn and(self, other: Self) -> Self
        ensures { result ≡ kind.and self other };

    fn or(self, other: Self) -> Self
        ensures { result ≡ kind.or self other };

    fn xor(self, other: Self) -> Self
        ensures { result ≡ kind.xor self other };

    // The first datum where self is 1, and the second where it is 0.
    fn pick(self, first: Self, second: Self) -> Self
        ensures { result ≡ kind.pick self first second };

    // The bit that the value admits alone in every situation, if there is one.
    fn told(self) -> Option<bool>
        ensures { result ≡ kind.told self };

    ghost lawful: { Lawful kind };
}

pub trait WithUnknown: Signal {
    ghost blank: { Self };

    // A value that admits both bits in every situation.
    fn unknown() -> Self
        ensures { result ≡ blank };

    ghost open: { AdmitsBoth Self.kind blank };
}

// The gate's value of three operands; a gate of fewer inputs leaves the last ones aside.
pub fn evaluate<K: Signal>(gate: Gate, a: K, b: K, c: K) -> K
    ensures value { result ≡ gate_value K.Signal.kind gate (a ∷ b ∷ c ∷ []) }
{
    match gate {
        Gate::Low => K::low(),
        Gate::High => K::high(),
        Gate::Buf => a,
        Gate::Not => a.not(),
        Gate::And => a.and(b),
        Gate::Or => a.or(b),
        Gate::Xor => a.xor(b),
        Gate::Nand => a.and(b).not(),
        Gate::Nor => a.or(b).not(),
        Gate::Xnor => a.xor(b).not(),
        Gate::Pick => a.pick(b, c),
    }
}

// On any kind the gates keep to the truth table.
pub fn gates_stand<K: Signal>()
    ensures { GatesStand K.Signal.kind }
{}

// On bits the gates are the truth table.
pub fn bits_stand()
    ensures { GatesOnBits }
{}

// The worked cases, from the definitions.
pub fn cases_stand()
    ensures { Cases }
{}
