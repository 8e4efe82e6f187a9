//! Which places a walk passed.
use co_base::Place;

/// The places that a walk passed: nobody of the other side stands below `to`.
#[derive(Copy, Clone)]
pub(crate) struct Way {
    pub from: Place,
    pub to: Place,
}
