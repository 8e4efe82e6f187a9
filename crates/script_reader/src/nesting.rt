//! What a line of a block opens and closes.

ghost use Rattle.std.specs.Prelude.{◌≡◌, ◌++◌, ◌∷◌, [], ℕ, List, OnOk, Option, is_some, option_map};
ghost use Rattle.script_grammar.specs.Blocks.{but_first, nest_after, clauses_after};

use crate::limits::TOO_MANY_TURNS;
use script_grammar::Instruction;
use std::alloc::{AllocError, Global};

/// Opens lines that run so often.
pub(crate) fn open_turns(nest: &mut Vec<u32>, turns: u32) -> Result<(), AllocError>
    ensures { OnOk result (nest.new.items ≡ turns ∷ nest.old.items) }
{
    nest.insert(0, turns)?;
    Ok(())
}

/// Closes the innermost lines that are open.
pub(crate) fn close_turns(nest: &mut Vec<u32>)
    ensures { nest.new.items ≡ but_first nest.old.items }
{
    if !nest.is_empty() {
        nest.remove(0);
    }
}

/// The lines that are open after this one, the innermost first.
pub(crate) fn enter_nest(
    nest: &mut Vec<u32>,
    selecting: bool,
    line: Instruction,
) -> Result<(), AllocError>
    ensures { OnOk result ((clauses : Option (List ℕ))
        → selecting ≡ is_some clauses
        → nest.new.items ≡ nest_after clauses nest.old.items line) }
{
    match line {
        Instruction::End => {
            if !selecting {
                close_turns(nest);
            }
            Ok(())
        }
        Instruction::Repeat { turns } => open_turns(nest, turns),
        Instruction::Each { .. } => open_turns(nest, TOO_MANY_TURNS),
        Instruction::Scope { .. } => open_turns(nest, 1),
        _ => Ok(()),
    }
}

fn push_clause(clauses: &mut Option<Vec<u16>>, c: u16) -> Result<(), AllocError>
    ensures { OnOk result (option_map (λ v. v.items) clauses.new
        ≡ option_map (λ cs. cs ++ c ∷ []) (option_map (λ v. v.items) clauses.old)) }
{
    if let Some(channels) = clauses {
        channels.push(c)?;
    }
    Ok(())
}

/// The clauses of the select that is open after this line.
pub(crate) fn enter_clause(
    alloc: Global,
    clauses: &mut Option<Vec<u16>>,
    line: Instruction,
) -> Result<(), AllocError>
    ensures { OnOk result (option_map (λ v. v.items) clauses.new ≡ clauses_after (option_map (λ v. v.items) clauses.old) line) }
{
    match line {
        Instruction::Select => {
            *clauses = Some(Vec::new(alloc));
            Ok(())
        }
        Instruction::OnSend { c, .. } => push_clause(clauses, c),
        Instruction::OnReceive { c } => push_clause(clauses, c),
        Instruction::End => {
            *clauses = None;
            Ok(())
        }
        _ => Ok(()),
    }
}
