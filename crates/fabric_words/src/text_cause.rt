//! The errors that any text about a fabric can have.

ghost use Rattle.std.specs.Prelude.{◌≡◌};

/// The reasons that each kind of text has, whatever its lines are.
pub trait TextCause: Copy {
    /// A line is too long.
    ghost too_long: { Self };

    /// The text was cut off.
    ghost no_end: { Self };

    /// The text is too long.
    ghost too_many: { Self };

    /// Returns the reason for a line of more than 4,096 bytes.
    fn too_long() -> Self
        ensures { result ≡ too_long };

    /// Returns the reason for a text that ends too early.
    fn no_end() -> Self
        ensures { result ≡ no_end };

    /// Returns the reason for a text of more than 2^62 bytes.
    fn too_many() -> Self
        ensures { result ≡ too_many };
}
