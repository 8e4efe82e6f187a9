//! Which script is run.

use std::marker::Brand;

/// Which script is run. Each run picks its own.
pub trait ScriptName {
    ghost use Rattle.script_grammar.specs.Programs.{Program};

    ghost program: { Program };
}

impl ScriptName for Brand {
    ghost use Rattle.std.specs.Prelude.{[]};

    ghost program = { record { version = 1; channels = []; blocks = []; spawns = [] } };
}
