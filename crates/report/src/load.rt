// The load of a processor.

ghost use Rattle.std.specs.Prelude.{◌≡◌, ◌≤◌, ◌<◌, cond, eqb, length};
ghost use Rattle.table.specs.Table.{at};
ghost use Rattle.report.specs.Load.{load_of, row_load};
ghost use Rattle.report.specs.LoadLaws.{Loads};

use table::view::TableView;

// The load of one row.
#[tactic(auto, unfolding(crate::specs::Load::row_load))]
fn row_load(cost: u64, period: u64) -> u64
    requires { (cost ≤ 1000000) × (0 < period) }
    ensures { result ≡ row_load cost period }
{
    1000 * cost / period
}

// What a row adds to the load of the processor of this number.
#[tactic(auto, using(crate::specs::LoadLaws::row_load_most))]
fn row_load_on<T: TableView>(table: &T, row: usize, period: u64, number: u64) -> u64
    requires reads { (row < length (T.table table.now).processor) × (row < length (T.table table.now).time) }
    requires small { (at (T.table table.now).time row ≤ 1000000) × (0 < period) }
    ensures most { result ≤ 1000000000 }
    ensures load { result ≡ cond (eqb (at (T.table table.now).processor row) number) (row_load (at (T.table table.now).time row) period) 0 }
{
    if table.processor(row) != number {
        return 0;
    }
    row_load(table.time(row), period)
}

// The load of the processor of this number: the sum over its rows.
#[tactic(auto, using(crate::specs::LoadLaws::load_none, crate::specs::LoadLaws::load_more))]
pub(crate) fn load_of<T: TableView>(table: &T, periods: &[u64], rows: usize, number: u64) -> u64
    requires { Loads rows (T.table table.now).processor (T.table table.now).time periods.now }
    ensures { result ≡ load_of rows (at (T.table table.now).processor) (at (T.table table.now).time) (at periods.now) number }
{
    let mut load = 0;
    for row in 0..rows {
        load += row_load_on(table, row, periods[row], number);
    }
    load
}
