// The bounds of a plan (document 01, "Bounds"): busy length, instances and bound of each row, bound and slack of each
// chain, and whether the plan is accepted. `bound` is all that is public, with the lists that it fills.

#![tactic(auto)]

mod chains;
pub mod lists;

ghost use Rattle.std.specs.Prelude.{◌≡◌};
ghost use Rattle.bounds.specs.Bounds.{Bounding};
ghost use Rattle.bounds.specs.Held.{lists_in, names_in};

use crate::lists::BoundLists;
use planned::rows::count_rows;
use table::refusal::Refusal;
use table::view::TableView;

// The bounds of the table's plan: fills busy length, instances and bound for each row, bound and slack for each task, and
// answers 1 if the plan is accepted, else 0, as the report prints it and `Bounding` says. A refusal leaves the lists as they are.
pub fn bound<T: TableView>(table: &T, out: &mut BoundLists<'_>) -> Result<u64, Refusal>
    ensures same_place { names_in out.new ≡ names_in out.old }
    ensures outcome { Bounding (T.table table.now) (lists_in out.old) (lists_in out.new) result }
{
    let rows = count_rows(table)?;
    out.check_room(rows, table.tasks())?;
    out.fill_rows(table)?;
    Ok(u64::from(out.fill_chains(table)))
}
