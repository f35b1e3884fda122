//! What has a number.

/// What has its place in a list by a number of its own.
pub trait Numbered: Drop {
    ghost use Rattle.std.specs.Prelude.{◌≡◌, ℤ};

    ghost number_of: { Self → ℤ };

    /// The number.
    fn number(&self) -> i64
        ensures { result ≡ number_of self.now };
}
