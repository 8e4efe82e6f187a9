//! The language of scripts: its lines, what a text spells, and at which line another text is first at fault.
//!
//! The crate has no code that runs. `src` has the types of which the definitions speak, and laws: the contracts of functions
//! with empty bodies. `specs` says what the language is. Read in this order:
//!
//! - `Words`: the lines of a text, and the words of a line.
//! - `Programs`: what a script says.
//! - `Lines`: the words of each line.
//! - `Blocks`: what may stand in a coroutine, and what each line adds to it.
//! - `Reads`: the script so far, and what each line adds to it.
//! - `Grammar`: what the words of a line say, and what a text spells.
//! - `Nesting`: how deep a line stands, and the line that closes what it opens.
//! - `Canonical`: a program written out.
//! - `WellFormed`: what holds of each program that a text spells.
//!
//! For faults alone: `Verbs`, `Faults`, `Places`, `Forms`, `Texts` (the first fault of a text, as an equation) and `Faulty` (the
//! same in words of the grammar). For what runs scripts: `Tags` (the numbers of coroutines and Jobs), `Declarations` (what is
//! declared before it is named) and `Generated` (the script that adds up numbers). Examples: `ReadTexts`, `FaultsByText` and
//! `FaultsByLine`.
//!
//! The laws, and the files of `proofs` that show each, in the order to read:
//!
//! - A text spells at most one program: `DistinctNames`, `PlacesRead`, `LinesRead`, `SpelledOnce`.
//! - What is read is spelled, what is spelled is read, and a fault is that of the first faulty line, of which a text has at most one:
//!   `PlacesSpelled`, `LinesSpelled`, `FormsSpelled`, `TextsRead`.
//! - The canonical text of a program spells it: by words in `ChannelsPrinted`, `BlocksPrinted`, `ProgramPrinted`, as a text in
//!   `LinesWritten`, `TextPrinted`.
//! - What is spelled is a program, and is read again where it is printed: `SpelledIsProgram`.
//! - What a line opens is closed: `OpenedIsClosed`. What is named is declared: `NamedIsDeclared`.
//! - A launch counts as often as it runs: `LaunchesCounted`. The load is the number of Jobs: `Layouts`, `NestAfterLines`, `JobsCounted`.
//! - No tag is launched twice: `Layouts`, `LaunchedTags`.
//! - The generated text spells the generated script: `GeneratedScript`.
//!
//! `Declarations`, `Layouts` and `SizesSoFar` have the lemmas that crates above ask for. `Truths`, `VerbWords` and `NamePlaces` serve
//! them all.
#![tactic(auto)]

mod examples;
mod fault;
mod instructions;
mod laws;
mod verbs;

pub use examples::{
    each_line_has_these_faults, these_texts_are_scripts, these_texts_have_these_faults,
};
pub use fault::{FaultKind, ScriptFault};
pub use instructions::{Instruction, Launching, Operand};
pub use laws::{
    a_fault_is_that_of_the_first_faulty_line, a_launch_counts_as_often_as_it_runs,
    a_printed_program_is_read_again, a_text_has_at_most_one_first_fault,
    a_text_spells_at_most_one_program, no_tag_is_launched_twice,
    the_canonical_text_of_a_program_spells_it, the_generated_text_spells_the_generated_script,
    the_load_of_a_program_is_the_number_of_its_jobs, what_a_line_opens_is_closed,
    what_a_program_names_is_declared, what_is_read_is_spelled, what_is_spelled_is_a_program,
    what_is_spelled_is_read,
};
pub use verbs::Verb;
