//! A value apart from all others.

ghost use Rattle.std.specs.Prelude.{◌≡◌};

/// A value with two lines of a cache behind it: so who writes to it takes no line from who works on what lies beside.
#[derive(Drop)]
pub struct Apart<T> {
    pub value: T,
    _rest: [u64; 16],
}

impl<T> Apart<T> {
    /// The value, set apart.
    pub fn new(value: T) -> Apart<T>
        ensures { result.value ≡ value }
    {
        Apart {
            value,
            _rest: [0; 16],
        }
    }

    /// The value alone.
    pub fn into_inner(self) -> T
        ensures { result ≡ self.value }
    {
        let Apart { value, _rest: _ } = self;
        value
    }
}
