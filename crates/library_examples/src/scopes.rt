//! Calls on Jobs and on their done channels: a `Builder` makes those of one coroutine, over any floor of channels and any of Jobs.

ghost use Rattle.std.specs.Prelude.{◌≡◌, ◌<◌, true, is_some, IfOk, OnOk};
ghost use Rattle.job_model.specs.Histories.{replay};
ghost use Rattle.job_model.specs.Cancels.{IsAllCancelled};
ghost use Rattle.scope_builders.specs.Calls.{SameBuilder, seen, MayBuild};
ghost use Rattle.library_examples.specs.Examples.{SawResult, SawSome};

use call_meaning::JobsBeside;
use channel_model::ChannelFloor;
use co_base::{Memory, Row, Tag, Value, Wakes};
use job_model::End;
use note_book::NoteBook;
use scope_builders::{Builder, Joined, LaunchError};

/// Launches a coroutine as a child of a Job, and cancels it before it ran. In the end its Job is Cancelling or ended, with all below it.
pub(crate) fn launch_and_cancel<C: ChannelFloor, J: JobsBeside<C>, B: NoteBook, W: Wakes>(
    builder: &mut Builder<'_, '_, '_, '_, C, J, B, W>,
    parent: Row,
    tag: Tag,
) -> Result<u32, LaunchError>
    requires may { MayBuild builder.old.base (seen C.view J.view B.items builder.old) }
    requires parent { is_some (replay (J.view builder.old.jobs.now).seen parent) ≡ true }
    requires tag { tag < (J.view builder.old.jobs.now).shape.coroutines }
    requires alone { (J.view builder.old.jobs.now).alone ≡ true }
    ensures same { SameBuilder C.anchor J.anchor builder.old builder.new }
    ensures cancelled { OnOk result (IsAllCancelled (replay (J.view builder.new.jobs.now).seen) tag) }
    ensures may { OnOk result (MayBuild builder.new.base (seen C.view J.view B.items builder.new)) }
    ensures shape { OnOk result ((J.view builder.new.jobs.now).shape ≡ (J.view builder.old.jobs.now).shape) }
{
    match builder.launch(parent, tag, false) {
        Ok(child) => match builder.cancel(child.row) {
            Ok(count) => Ok(count),
            Err(_memory) => Err(LaunchError::Memory),
        },
        Err(error) => Err(error),
    }
}

/// The result of a Job, if its done channel is closed and it has completed: then the last note is that the caller saw so.
pub(crate) fn result_of<C: ChannelFloor, J: JobsBeside<C>, B: NoteBook, W: Wakes>(
    builder: &mut Builder<'_, '_, '_, '_, C, J, B, W>,
    row: Row,
) -> Result<Option<Value>, Memory>
    requires may { MayBuild builder.old.base (seen C.view J.view B.items builder.old) }
    requires row { is_some (replay (J.view builder.old.jobs.now).seen row) ≡ true }
    ensures same { SameBuilder C.anchor J.anchor builder.old builder.new }
    ensures saw { IfOk result (λ value. SawResult row value (B.items builder.new.book.now)) }
{
    match builder.receive_done(row) {
        Ok(Joined::Closed(_value)) => match builder.seen_end(row) {
            Ok(Some(End::Completed(value))) => Ok(Some(value)),
            Ok(_other) => Ok(None),
            Err(memory) => Err(memory),
        },
        Ok(_other) => Ok(None),
        Err(memory) => Err(memory),
    }
}

/// Enters a scope below a Job, ends its body with a value, and waits for its end: the result of the scope. None: it has not completed.
pub(crate) fn scope_result<C: ChannelFloor, J: JobsBeside<C>, B: NoteBook, W: Wakes>(
    builder: &mut Builder<'_, '_, '_, '_, C, J, B, W>,
    parent: Row,
    value: Value,
) -> Result<Option<Value>, LaunchError>
    requires may { MayBuild builder.old.base (seen C.view J.view B.items builder.old) }
    requires parent { is_some (replay (J.view builder.old.jobs.now).seen parent) ≡ true }
    requires tag { builder.old.who < (J.view builder.old.jobs.now).shape.coroutines }
    ensures saw { IfOk result (λ value. SawSome value (B.items builder.new.book.now)) }
{
    let supervisor = false;
    match builder.enter(parent, supervisor) {
        Ok(scope) => match builder.end_job(scope.row, value) {
            Ok(_ended) => match result_of(builder, scope.row) {
                Ok(result) => Ok(result),
                Err(_memory) => Err(LaunchError::Memory),
            },
            Err(_memory) => Err(LaunchError::Memory),
        },
        Err(error) => Err(error),
    }
}

/// Launches a coroutine below the root and cancels it, and then enters a scope there: the answer of each. If none was launched, no scope
/// is entered, and both say why.
pub(crate) fn launch_and_enter<C: ChannelFloor, J: JobsBeside<C>, B: NoteBook, W: Wakes>(
    builder: &mut Builder<'_, '_, '_, '_, C, J, B, W>,
    tag: Tag,
    value: Value,
) -> (Result<u32, LaunchError>, Result<Option<Value>, LaunchError>)
    requires may { MayBuild builder.old.base (seen C.view J.view B.items builder.old) }
    requires tag { tag < (J.view builder.old.jobs.now).shape.coroutines }
    requires own { builder.old.who < (J.view builder.old.jobs.now).shape.coroutines }
    requires alone { (J.view builder.old.jobs.now).alone ≡ true }
    ensures saw { IfOk result.1 (λ value. SawSome value (B.items builder.new.book.now)) }
{
    match launch_and_cancel(builder, 0, tag) {
        Ok(count) => (Ok(count), scope_result(builder, 0, value)),
        Err(error) => (Err(error), Err(error)),
    }
}
