// The numbers of a plan's rows (document 01, "Bounds"): busy length, instances and bound of each. `row_bounds` is all that
// is public, with the lists that it fills.

#![tactic(auto)]

mod clock;
mod ends;
mod level;
pub mod lists;
mod numbers;
mod rows;

ghost use Rattle.std.specs.Prelude.{◌≡◌};
ghost use Rattle.busy.specs.Numbering.{Numbering};
ghost use Rattle.busy.specs.Held.{names_in, row_lists_in};

use crate::lists::RowLists;
use crate::numbers::Numbers;
use crate::rows::Rows;
use planned::rows::view_rows;
use table::refusal::Refusal;
use table::view::TableView;

// Fills busy length, instances and bound for each row of the table's plan. A refusal leaves the lists as they are: the
// numbers are found in lists made here, and copied once every row has its own.
pub fn row_bounds<T: TableView>(table: &T, out: &mut RowLists<'_>) -> Result<u64, Refusal>
    ensures same_place { names_in out.new ≡ names_in out.old }
    ensures outcome { Numbering (T.table table.now) (row_lists_in out.old) (row_lists_in out.new) result }
{
    // Two lists side by side: `view_rows` fills the two that its contract names.
    let mut periods = [0u64; 128];
    let mut firsts = [false; 128];
    let answer = view_rows(table, &mut periods, &mut firsts)?;
    let count = answer as usize;
    if !out.hold(count) {
        return Err(Refusal::TooShort(answer));
    }
    let rows = Rows {
        table,
        count,
        periods: &periods,
    };
    let mut numbers = Numbers::none();
    numbers.solve_all(&rows)?;
    out.fill(count, &numbers);
    Ok(answer)
}
