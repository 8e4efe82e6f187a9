//! What two histories accept, and one order of both refuses.

ghost use Rattle.std.specs.Prelude.{Some};
ghost use Rattle.job_model.specs.declared.acts.End.TheVariants.{Completed};
ghost use Rattle.script_meaning.specs.Books.{BooksOf};
ghost use Rattle.run_laws.specs.Ends.{IsRunAtRest};
ghost use Rattle.run_laws.specs.Orders.{InOneOrder};
ghost use Rattle.order_laws.specs.StaleAnswers.{program, books, channels, jobs};
ghost use Rattle.order_laws.specs.WrongResults.{
  program as wrong_program,
  books as wrong_books,
  channels as wrong_channels,
  jobs as wrong_jobs,
};
ghost use Rattle.order_laws.specs.LateReceives.{program as late_program, books as late_books, channels as late_channels, jobs as late_jobs};
ghost use Rattle.order_laws.specs.BrokenScopes.{
  program as scope_program,
  books as scope_books,
  channels as scope_channels,
  jobs as scope_jobs,
};

/// The two histories alone do not show that the books are those of no run.
pub fn two_histories_accept_a_stale_answer()
    ensures { IsRunAtRest program books channels jobs (Some (Completed 0)) }
{}

/// Books in which a coroutine finds the channel empty to which main had sent before it launched that coroutine have no order.
pub fn a_stale_answer_is_refused_in_one_order()
    ensures { (of : BooksOf program books channels jobs) → InOneOrder program books channels jobs of → ⊥ }
{}

/// Nor have books in which main awaits such a coroutine, so that the result is another than that of each run.
pub fn a_wrong_result_is_refused_in_one_order()
    ensures { (of : BooksOf wrong_program wrong_books wrong_channels wrong_jobs)
        → InOneOrder wrong_program wrong_books wrong_channels wrong_jobs of → ⊥ }
{}

/// Nor have books in which a child's send is refused by a close that main makes after it has waited for the child at the end of a scope.
pub fn a_broken_scope_is_refused_in_one_order()
    ensures { (of : BooksOf scope_program scope_books scope_channels scope_jobs)
        → InOneOrder scope_program scope_books scope_channels scope_jobs of → ⊥ }
{}

/// Nor have books in which a receiver goes on with an element that it was handed after its Job had been cancelled.
pub fn a_late_receive_is_refused_in_one_order()
    ensures { (of : BooksOf late_program late_books late_channels late_jobs)
        → InOneOrder late_program late_books late_channels late_jobs of → ⊥ }
{}
