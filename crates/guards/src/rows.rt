// A plan's rows as the calls read them.

ghost use Rattle.std.specs.Prelude.{◌≡◌};
ghost use Rattle.guards.specs.Rows.{Rows, rows_in};

use planned::rows::view_rows;
use table::view::TableView;

// How many rows there are, each one's period, and whether it is the first of its chain.
// Lists in parallel, as `view_rows` fills them and `Rows` (specs/Rows.antt) names them.
#[derive(Clone, Copy)]
pub struct PlanRows<'a> {
    pub count: usize,
    pub periods: &'a [u64],
    pub firsts: &'a [bool],
}

// The rows of a table in two lists, and how many there are: 0 where `view_rows` refuses, as the table is no plan or a list is too short.
// A number and no Result: `rows_in` can't fail (docs/CONTRACTS.md).
pub fn rows_in<T: TableView>(table: &T, periods: &mut [u64], firsts: &mut [bool]) -> usize
    ensures { ◌≡◌ {A = Rows} (record { count = result; period = periods.new; first = firsts.new }) (rows_in (T.table table.now) periods.old firsts.old) }
{
    view_rows(table, periods, firsts).unwrap_or(0) as usize
}
