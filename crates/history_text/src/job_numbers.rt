//! How many coroutines and scopes there are.

ghost use Rattle.std.specs.Prelude.{◌<◌, ◌≤◌, ◌+◌};

/// How many coroutines and scopes have Jobs: the first rows are those of the coroutines, of which row 0 is the root, and then come those
/// of the scopes.
#[derive(Clone, Copy)]
pub struct JobNumbers {
    pub coroutines: u16,
    pub scopes: u16,
    pub ghost some: { 0 < coroutines },
    pub ghost few: { coroutines + scopes ≤ 16000 },
}
