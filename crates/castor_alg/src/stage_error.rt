//! Refusals of queries whose phases don't fit.

/// What stands in the wrong phase.
#[derive(Clone, Copy, Debug, PartialEq, Eq)]
pub enum StageError {
    /// A table in run position.
    TableAtRun,
    /// A join in run position.
    JoinAtRun,
    /// A parameter in an expression that is computed at build.
    ParamAtBuild,
    /// A scope in an expression that is computed at build, where the scope isn't bound or its row is
    /// known at run.
    RunScopeAtBuild,
    /// A scope in an expression that is computed at run, where the scope isn't bound or its row is known
    /// at build.
    BuildScopeAtRun,
}
