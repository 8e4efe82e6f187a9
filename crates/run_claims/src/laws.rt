//! What follows from the rest of a run.

ghost use Rattle.std.specs.Prelude.{List, Option};
ghost use Rattle.channel_model.specs.declared.acts.Entry.{Entry};
ghost use Rattle.job_model.specs.declared.acts.End.{End};
ghost use Rattle.job_model.specs.declared.acts.JobEntry.{JobEntry};
ghost use Rattle.note_book.specs.declared.book.Item.{Item};
ghost use Rattle.script_grammar.specs.Programs.{Program};
ghost use Rattle.run_laws.specs.Ends.{IsRunInOneOrder};
ghost use Rattle.run_claims.specs.Runs.{RunsTo, IsRunOf};

/// Books and histories of a run that came to rest, whose entries have one order, meet all that is claimed of a run.
pub fn a_run_at_rest_is_served_and_told()
    ensures { (p : Program) (books : List (List Item)) (channels : List Entry) (jobs : List JobEntry) (root : Option End)
        → IsRunInOneOrder p books channels jobs root → (run : RunsTo root p) × IsRunOf p books channels jobs root run }
{}
