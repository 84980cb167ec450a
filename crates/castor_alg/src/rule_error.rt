//! Why a rule isn't applied.

use castor_val::Memory;

/// Why a rule gives no relation. Where several hold, the first one in this order is the answer.
#[derive(Clone, Copy, Debug, PartialEq, Eq)]
pub enum RuleError {
    /// The rule takes no argument and has one, or takes one and has none that serves.
    BadArgument,
    /// The relation hasn't the form that the rule rewrites.
    Shape,
    /// A part that the rule moves or drops may fault.
    NotTotal,
    /// A scope would be read under another binder than its own.
    Captured,
    /// There was no memory for the result.
    Memory,
}

impl From<Memory> for RuleError {
    ghost use Rattle.std.specs.Prelude.{◌≡◌};
    ghost use Rattle.castor_alg.specs.declared.rule_error.RuleError.TheVariants.{Memory};

    ghost from_gives = { λ _ e. e ≡ Memory };

    fn from(_: Memory) -> RuleError {
        RuleError::Memory
    }
}
