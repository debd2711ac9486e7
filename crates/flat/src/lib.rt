// A step by two passes, the flat board, and the law for runs: definitions and theorems, with no program.
#![tactic(auto)]

ghost use Rattle.rules.specs.Boards.{Design};
ghost use Rattle.rules.specs.Sound.{Sound};
ghost use Rattle.flat.specs.InPlace.{CellsInPlace};
ghost use Rattle.flat.specs.Laws.{BitsAgree, CellsStay, Counts, FlatStep, PassesKeep};
ghost use Rattle.flat.specs.Machine.{ByNumber, MachineKeeps, StaysDeep, TicksFall};
ghost use Rattle.flat.specs.Refuted.{Refuted};
ghost use Rattle.flat.specs.RunLaws.{LawForPoweredRuns, LawForRuns};
ghost use Rattle.flat.specs.Windows.{WindowsShow};

use signal::{Signal, WithUnknown};

// The law for runs that are powered.
pub fn law_for_powered_runs<K: Signal>()
    ensures { (d : Design) → Sound d → LawForPoweredRuns K.Signal.kind d }
{}

// The law for runs that are powered or started cold.
pub fn law_for_runs<K: WithUnknown>()
    ensures { (d : Design) → Sound d → LawForRuns K.Signal.kind d K.WithUnknown.blank }
{}

// Wrong ways of running a board break the law, each one a part of it.
pub fn wrong_ways_are_refuted()
    ensures { Refuted }
{}

// Both passes keep any relation that the gates keep.
pub fn passes_keep<V, W>()
    ensures { PassesKeep V W }
{}

// Exactly one set of bits agrees on the flat board.
pub fn bits_agree()
    ensures { BitsAgree }
{}

// The flat step is the two passes on bits.
pub fn flat_step_stands()
    ensures { FlatStep }
{}

// A step counts each flat gate once, and once more for every cell-holding module below the top on the way to it.
pub fn counts_stand<V>()
    ensures { Counts V }
{}

// A step keeps the number of cells.
pub fn cells_stay<V>()
    ensures { CellsStay V }
{}

// A machine over a stack of levels comes to the two passes.
pub fn machine_stands<V>()
    ensures { MachineKeeps V }
{}

// The machine halts: each tick leaves one less.
pub fn ticks_fall<V>()
    ensures { TicksFall V }
{}

// The stack is no deeper than the modules.
pub fn stack_stays_small<V>()
    ensures { StaysDeep V }
{}

// A tick writes at most one of the cells, which lie in one row throughout.
pub fn cells_stay_in_place<V>()
    ensures { CellsInPlace V }
{}

// A module's wires as a part of the working values.
pub fn windows_show<V>()
    ensures { WindowsShow V }
{}

// A module that another may use is the board's module of that number.
pub fn modules_by_number()
    ensures { ByNumber }
{}
