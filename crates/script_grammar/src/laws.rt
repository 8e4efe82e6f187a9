//! What holds of texts and programs.

ghost use Rattle.std.specs.Prelude.{◌≡◌, ◌<◌, ◌≤◌, ℕ, List, [], length, Ok, Err};
ghost use Rattle.script_grammar.specs.declared.fault.ScriptFault.{ScriptFault};
ghost use Rattle.script_grammar.specs.declared.instructions.Instruction.{Instruction};
ghost use Rattle.script_grammar.specs.Programs.{Program};
ghost use Rattle.script_grammar.specs.Grammar.{Spells};
ghost use Rattle.script_grammar.specs.Canonical.{canonical_text};
ghost use Rattle.script_grammar.specs.WellFormed.{IsProgram, whole_load};
ghost use Rattle.script_grammar.specs.Texts.{reading_of};
ghost use Rattle.script_grammar.specs.Faulty.{FirstFault};
ghost use Rattle.script_grammar.specs.Declarations.{Declares};
ghost use Rattle.script_grammar.specs.Nesting.{AreClosed};
ghost use Rattle.script_grammar.specs.Tags.{launched, launches_from, size_of, sizes_of, coroutine_count, job_count, LaunchesAt};
ghost use Rattle.script_grammar.specs.Generated.{generated, generated_text};

/// A text spells at most one program.
pub fn a_text_spells_at_most_one_program()
    ensures { (bytes : List ℕ) (p q : Program) → Spells bytes p → Spells bytes q → p ≡ q }
{}

/// What a text spells is read of it.
pub fn what_is_spelled_is_read()
    ensures { (bytes : List ℕ) (p : Program) → Spells bytes p → reading_of bytes ≡ Ok p }
{}

/// What is read of a text is what it spells.
pub fn what_is_read_is_spelled()
    ensures { (bytes : List ℕ) (p : Program) → reading_of bytes ≡ Ok p → Spells bytes p }
{}

/// The fault that is told of a text is that of its first faulty line.
pub fn a_fault_is_that_of_the_first_faulty_line()
    ensures { (bytes : List ℕ) (fault : ScriptFault) → reading_of bytes ≡ Err fault → FirstFault bytes fault }
{}

/// A text has at most one first fault, and it is read as that.
pub fn a_text_has_at_most_one_first_fault()
    ensures one { (bytes : List ℕ) (f g : ScriptFault) → FirstFault bytes f → FirstFault bytes g → f ≡ g }
    ensures read { (bytes : List ℕ) (fault : ScriptFault) → FirstFault bytes fault → reading_of bytes ≡ Err fault }
{}

/// What a text spells is a program.
pub fn what_is_spelled_is_a_program()
    ensures { (bytes : List ℕ) (p : Program) → Spells bytes p → IsProgram p }
{}

/// The canonical text of a program spells it, where it is not too long.
pub fn the_canonical_text_of_a_program_spells_it()
    ensures { (p : Program) → IsProgram p → length (canonical_text p) ≤ 1048576 → Spells (canonical_text p) p }
{}

/// A program that is printed and read again is the same.
pub fn a_printed_program_is_read_again()
    ensures { (p : Program) → IsProgram p → length (canonical_text p) ≤ 1048576 → reading_of (canonical_text p) ≡ Ok p }
{}

/// What a program's lines and spawns name is declared: channels, blocks before the line's own, and names of Jobs that were given.
pub fn what_a_program_names_is_declared()
    ensures { (p : Program) → IsProgram p → Declares p }
{}

/// What a line of a program opens is closed.
pub fn what_a_line_opens_is_closed()
    ensures { (p : Program) → IsProgram p → AreClosed p }
{}

/// The weight of main and of all that is spawned is the number of the Jobs that there may be: of coroutines and of scopes.
pub fn the_load_of_a_program_is_the_number_of_its_jobs()
    ensures { (p : Program) → IsProgram p → whole_load p ≡ job_count p }
{}

/// The tags that lines take for what they launch are found without the list of it: each launch counts as often as the lines
/// round it run.
pub fn a_launch_counts_as_often_as_it_runs()
    ensures { (p : Program) (code : List Instruction) → sizes_of p (launched code) ≡ launches_from (size_of p) [] code }
{}

/// No two coroutines launch the same tag.
pub fn no_tag_is_launched_twice()
    ensures { (p : Program) (k t tag : ℕ) → IsProgram p → k < coroutine_count p → t < coroutine_count p
        → LaunchesAt p k tag → LaunchesAt p t tag → k ≡ t }
{}

/// The generated script is canonical, its text spells it, and it has 11 Jobs.
pub fn the_generated_text_spells_the_generated_script()
    ensures canonical { (n : ℕ) → canonical_text (generated n) ≡ generated_text n }
    ensures spelled { (n : ℕ) → 1 ≤ n → n ≤ 100000 → Spells (generated_text n) (generated n) }
    ensures jobs { (n : ℕ) → 1 ≤ n → n ≤ 100000 → job_count (generated n) ≡ 11 }
{}
