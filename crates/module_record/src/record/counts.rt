//! How much a record holds.
ghost use Rattle.std.specs.Prelude.{ℕ, ◌≤◌};

// How many rows each table has, and whether there is module syntax.
#[derive(Clone, Copy)]
pub(super) struct Counts {
    pub(super) imports: usize,
    pub(super) requests: usize,
    pub(super) waiting: usize,
    pub(super) names: usize,
    pub(super) skipped: usize,
    pub(super) module_syntax: bool,
    ghost fewer: { skipped ≤ names },
}
