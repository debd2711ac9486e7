// The working values: a module's wires are a part of them, a window, that begins where its parent's ends.
ghost use Rattle.std.specs.Prelude.{◌≡◌, ℕ, ◌+◌, ◌<◌, ◌≤◌, map, length, get_or, slice_index, slice_index_or};
ghost use Rattle.signal.specs.GateValues.{input, gate_value};
ghost use Rattle.flat.specs.Windows.{writes};
ghost use Rattle.walk.specs.Levels.{Opened};

use gates::Gate;
use signal::Signal;

// The value on input `k` of a part, low if it has no such input.
// Stays: that the wires are there is asked of two slices, here and twice below; a struct of both would be made and read once.
fn input_value<K: Signal>(wires: &[K], ins: &[u8], k: usize) -> K
    requires { (j : ℕ) → j < length ins.now → slice_index ins.now j < length wires.now }
    ensures { result ≡ input K.Signal.kind (map (λ w. get_or wires.now w K.Signal.kind.low) ins.now) k }
{
    match ins.get(k) {
        Some(wire) => wires[*wire as usize],
        None => K::low(),
    }
}

// What a gate gives, by the values on its input wires.
pub(crate) fn gate_output<K: Signal>(gate: Gate, ins: &[u8], wires: &[K]) -> K
    requires { (j : ℕ) → j < length ins.now → slice_index ins.now j < length wires.now }
    ensures { result ≡ gate_value K.Signal.kind gate (map (λ w. get_or wires.now w K.Signal.kind.low) ins.now) }
{
    let a = input_value(wires, ins, 0);
    let b = input_value(wires, ins, 1);
    let c = input_value(wires, ins, 2);
    signal::evaluate(gate, a, b, c)
}

fn lower<K: Signal>(wires: &mut [K])
    ensures { wires.new ≡ map (λ _. K.Signal.kind.low) wires.old }
{
    let low = K::low();
    wires.fill_with(|| low);
}

// The window of a module at its start: its inputs from its parent's wires, and low behind them.
pub(crate) fn open<K: Signal>(work: &mut [K], base: usize, ins: &[u8], child: usize, wires: usize)
    requires fits { child + wires ≤ length work.old }
    requires few { length ins.now ≤ wires }
    requires ins { (j : ℕ) → j < length ins.now → base + slice_index ins.now j < child }
    ensures { Opened K.Signal.kind base ins.now child wires work.old work.new }
{
    for (k, pin) in ins.iter().enumerate() {
        work[child + k] = work[base + *pin as usize];
    }
    lower(&mut work[child + ins.len()..child + wires]);
}

// The top's window at its start: the inputs, and low behind them.
pub(crate) fn open_top<K: Signal>(work: &mut [K], inputs: &[K], wires: usize)
    requires fits { wires ≤ length work.old }
    requires few { length inputs.now ≤ wires }
    ensures given { (k : ℕ) → k < length inputs.now → slice_index_or work.new k K.Signal.kind.low ≡ slice_index_or inputs.now k K.Signal.kind.low }
    ensures rest { (k : ℕ) → length inputs.now ≤ k → k < wires → slice_index_or work.new k K.Signal.kind.low ≡ K.Signal.kind.low }
{
    work[..inputs.len()].copy_from_slice(inputs);
    lower(&mut work[inputs.len()..wires]);
}

// Hands the values on the wires `outs` of a window to the wires `pins` of its parent's, which begins at `to`.
pub(crate) fn hand_up<K: Signal>(work: &mut [K], base: usize, outs: &[u8], to: usize, pins: &[u8])
    requires same { length outs.now ≡ length pins.now }
    requires reads { (j : ℕ) → j < length outs.now → base + slice_index outs.now j < length work.old }
    requires apart { (j : ℕ) → j < length pins.now → to + slice_index pins.now j < base }
    ensures { work.new ≡ writes K.Signal.kind to pins.now (map (λ w. get_or work.old (base + w) K.Signal.kind.low) outs.now) work.old }
{
    for (pin, out) in pins.iter().zip(outs) {
        work[to + *pin as usize] = work[base + *out as usize];
    }
}

// The values on the wires `outs` of the top's window.
pub(crate) fn deliver<K: Signal>(work: &[K], outs: &[u8], outputs: &mut [K])
    requires same { length outputs.old ≡ length outs.now }
    requires reads { (j : ℕ) → j < length outs.now → slice_index outs.now j < length work.now }
    ensures { outputs.new ≡ map (λ w. get_or work.now w K.Signal.kind.low) outs.now }
{
    // Stays: after a `zip` over `iter_mut` a proof knows nothing of what was written.
    for (k, output) in outputs.iter_mut().enumerate() {
        *output = work[outs[k] as usize];
    }
}
