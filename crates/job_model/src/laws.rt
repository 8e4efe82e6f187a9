//! What holds in every legal history.

ghost use Rattle.std.specs.Prelude.{◌≡◌, ◌≢◌, ℕ, ◌*◌, ◌<◌, ◌≤◌, ◌++◌, length, is_some, [], ◌∷◌, ◌↔◌, true, List, Some};
ghost use Rattle.job_model.specs.declared.acts.End.{End as AnEnd};
ghost use Rattle.job_model.specs.declared.acts.Reason.{Reason as AReason};
ghost use Rattle.job_model.specs.declared.acts.JobAct.TheVariants.{Finish};
ghost use Rattle.job_model.specs.declared.acts.JobEntry.{JobEntry as Entry};
ghost use Rattle.job_model.specs.Trees.{Shape, IsShape, Tree, start, parent_of, state_of};
ghost use Rattle.job_model.specs.Acts.{finishes};
ghost use Rattle.job_model.specs.Effects.{after};
ghost use Rattle.job_model.specs.Needs.{Holds, Needs};
ghost use Rattle.job_model.specs.Histories.{replay, replay_from, Legal, LegalFrom};
ghost use Rattle.job_model.specs.Steps.{step, steps_from};
ghost use Rattle.job_model.specs.Families.{IsBelow, IsEnded};
ghost use Rattle.job_model.specs.Laws.{HasFamilies, RowGoesTo, ActTakes, row_of_act, HasNoOtherValue, cause_kept, cause_given_in, has, OncePerRow, IsByEntries};

/// A history that goes on leaves what its rest makes of the tree before, and is legal exactly if its beginning is and
/// its rest is from there.
pub fn appended_histories()
    ensures replayed { (xs ys : List Entry) → replay (xs ++ ys) ≡ replay_from (replay xs) ys }
    ensures legal { (shape : Shape) (xs ys : List Entry) → Legal shape (xs ++ ys) ↔ (Legal shape xs × LegalFrom shape (replay xs) ys) }
{}

/// A step is made exactly if the need of its act holds, and gives the tree after it; else it gives nothing. A history
/// is legal exactly if each of its steps is made.
pub fn a_step_is_made_exactly_where_its_need_holds()
    ensures made { (shape : Shape) (tree : Tree) (e : Entry) →
        Needs shape tree e.who e.act ↔ (step shape tree e ≡ Some (after tree e.who e.act)) }
    ensures refused { (shape : Shape) (tree : Tree) (e : Entry) → (¬ Needs shape tree e.who e.act) ↔ (step shape tree e ≡ None) }
    ensures legal { (shape : Shape) (history : List Entry) →
        Legal shape history ↔ (steps_from shape start history ≡ Some (replay history)) }
    ensures illegal { (shape : Shape) (history : List Entry) → (¬ Legal shape history) ↔ (steps_from shape start history ≡ None) }
{}

/// After a legal history parents and children name each other, each child once; a child that was told gone has ended, and
/// an ended Job has no other children.
pub fn families_are_in_order()
    ensures { (shape : Shape) (history : List Entry) → Legal shape history → HasFamilies (replay history) }
{}

/// All descendants of an ended Job have ended.
pub fn descendants_of_an_ended_job_have_ended()
    ensures { (shape : Shape) (history : List Entry) (row d : ℕ) → Legal shape history →
        IsEnded (replay history row) → IsBelow (replay history) row d → IsEnded (replay history d) }
{}

/// If a Job finishes, each child that it ever has finished before.
pub fn children_finish_before_their_parent()
    ensures { (shape : Shape) (xs ys : List Entry) (who row c : ℕ) (end : AnEnd) →
        Legal shape (xs ++ record { who = who; act = Finish row end } ∷ ys) →
        parent_of (replay (xs ++ record { who = who; act = Finish row end } ∷ ys) c) ≡ Some row → has finishes c xs ≡ true }
{}

/// A state goes to a later one only, and the two final states never change.
pub fn states_go_forward()
    ensures forward { (shape : Shape) (xs ys : List Entry) (row : ℕ) → Legal shape (xs ++ ys) →
        RowGoesTo (replay xs row) (replay (xs ++ ys) row) }
    ensures ended { (shape : Shape) (xs ys : List Entry) (row : ℕ) → Legal shape (xs ++ ys) →
        IsEnded (replay xs row) → state_of (replay (xs ++ ys) row) ≡ state_of (replay xs row) }
{}

/// An entry takes the state of its Job as its act says, and leaves every other state as it was.
pub fn states_go_as_each_act_says()
    ensures own { (shape : Shape) (xs : List Entry) (e : Entry) → Legal shape (xs ++ e ∷ []) →
        ActTakes e.act (state_of (replay xs (row_of_act e.act))) (state_of (replay (xs ++ e ∷ []) (row_of_act e.act))) }
    ensures other { (shape : Shape) (xs : List Entry) (e : Entry) (row : ℕ) → Legal shape (xs ++ e ∷ []) →
        row ≢ row_of_act e.act → state_of (replay (xs ++ e ∷ []) row) ≡ state_of (replay xs row) }
{}

/// The value of a Job is 0 if it is neither Completing nor Completed.
pub fn only_results_are_kept()
    ensures { (shape : Shape) (history : List Entry) (row : ℕ) → Legal shape history → HasNoOtherValue (replay history row) }
{}

/// The cause of a Job that is Cancelling or Cancelled is that of its first Cancel, or Request if it was attached so.
pub fn a_job_keeps_its_first_cause()
    ensures { (shape : Shape) (history : List Entry) (row : ℕ) → Legal shape history →
        cause_kept (replay history row) ≡ cause_given_in row history }
{}

/// A legal history has at most one entry of each of the six acts for each row.
pub fn each_act_is_done_with_a_row_at_most_once()
    ensures { (shape : Shape) (history : List Entry) (row : ℕ) → Legal shape history → OncePerRow row history }
{}

/// A row is attached, has ended its body, has ended, or was told gone exactly if an entry says so; the root is attached
/// without one.
pub fn a_row_is_what_its_entries_say()
    ensures { (shape : Shape) (history : List Entry) (row : ℕ) → Legal shape history → IsByEntries row history (replay history) }
{}

/// A reason for a Cancel that holds goes on to hold, whatever comes.
pub fn a_reason_goes_on_to_hold()
    ensures { (shape : Shape) (xs ys : List Entry) (who row : ℕ) (reason : AReason) → Legal shape (xs ++ ys) →
        Holds shape (replay xs) who row reason → Holds shape (replay (xs ++ ys)) who row reason }
{}

/// After a legal history only rows below the number of rows are attached, and it has at most six entries for each row.
pub fn a_legal_history_is_short()
    ensures within { (shape : Shape) (history : List Entry) (row : ℕ) → IsShape shape → Legal shape history →
        is_some (replay history row) ≡ true → row < shape.rows }
    ensures short { (shape : Shape) (history : List Entry) → IsShape shape → Legal shape history → length history ≤ 6 * shape.rows }
{}
