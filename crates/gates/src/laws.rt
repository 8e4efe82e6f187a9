//! What holds of a gate at all times.
ghost use Rattle.std.specs.Prelude.{ℕ};
ghost use Rattle.atomic_table.specs.Table.{State};
ghost use Rattle.worded.specs.Histories.{HasOneHistory};
ghost use Rattle.worded.specs.declared.view.View.{View};
ghost use Rattle.gates.specs.declared.act.GateEntry.{GateEntry as AnEntry};
ghost use Rattle.gates.specs.Gates.{Legal, maker};
ghost use Rattle.gates.specs.Words.{Fits};
ghost use Rattle.gates.specs.Laws.{HoldsGate};

/// Between any two steps the permits that are free, held and granted are as many as the gate has, whoever does what with the table; while
/// one is free nobody waits; and a gate of one permit has at most one holder. What a pass has seen tells what it holds or waits for.
pub fn permits_add_up()
    ensures { (n : ℕ) (s : State AnEntry (View AnEntry ℕ)) → HasOneHistory (Legal n) (Fits n) maker 49 s → HoldsGate n s }
{}
