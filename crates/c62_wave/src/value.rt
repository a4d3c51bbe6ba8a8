//! What a signal shows.

ghost use Rattle.std.specs.Prelude.{◌≡◌};
ghost use Rattle.c62_wave.specs.Value.{is_same};

/// What a signal of several bits shows.
#[derive(Clone, Copy, PartialEq, Eq, Debug)]
pub enum Value {
    /// A number.
    Word(u32),
    /// Nothing goes on.
    Idle,
    /// It isn't known.
    Unknown,
}

impl Value {
    /// Whether both show the same.
    pub fn is_same(self, other: Value) -> bool
        ensures { result ≡ is_same self other }
    {
        match (self, other) {
            (Value::Word(one), Value::Word(other)) => one == other,
            (Value::Idle, Value::Idle) | (Value::Unknown, Value::Unknown) => true,
            _ => false,
        }
    }
}
