//! A row for a table that has room for it.
ghost use Rattle.std.specs.Prelude.{◌≡◌, ℕ, ◌<◌, [], ◌∷◌, ◌++◌, length};

use pages::table::Table;

// One row more. The room is the caller's to know: a refusal would be a case that cannot be, in each caller.
pub(crate) fn put<T: Copy, const N: usize>(table: &mut Table<T, N>, row: T)
    requires { length table.old < N }
    ensures { table.new ≡ table.old ++ row ∷ [] }
{
    table.push(row).unwrap();
}
