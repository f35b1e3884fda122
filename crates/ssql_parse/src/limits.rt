//! The limits of a script.

ghost use Rattle.std.specs.Prelude.{◌≡◌};
ghost use Rattle.ssql_parse.specs.Limits.{script_limit};

/// A quantity of a script that has a limit.
#[derive(Clone, Copy, Debug, PartialEq, Eq)]
pub enum ScriptQuantity {
    /// Octets of the text: 65,536.
    Octets,
    /// Statements: 256.
    Statements,
    /// Parentheses and NOT that are open at a place: 32.
    Depth,
}

impl ScriptQuantity {
    /// The greatest number that the quantity may have.
    pub fn limit(self) -> u64
        ensures { result ≡ script_limit self }
    {
        match self {
            ScriptQuantity::Octets => 65_536,
            ScriptQuantity::Statements => 256,
            ScriptQuantity::Depth => 32,
        }
    }
}
