// Table lists: a table's words in a byte list.

ghost use Rattle.std.specs.Prelude.{◌≡◌, ◌≤◌, min, length};
ghost use Rattle.facts.specs.Sums.{sum};
ghost use Rattle.table.specs.Table.{at};
ghost use Rattle.planned.specs.Lists.{table_in_lists};
ghost use Rattle.columns.specs.Columns as columns;
ghost use Rattle.columns.specs.Columns.{blank_of};
ghost use Rattle.rack.specs.Layouts.{rows_in, table_in};
ghost use Rattle.rack.specs.TableLaws.{TablePut};

use crate::answer::RackAnswer;
use columns::columns::Columns;
use planned::lists::TableLists;
use table::limits::{MOST_ROWS, MOST_TASKS};

// The length of a table list.
pub(crate) const TABLE_BYTES: usize = 3856;

// How many of the rows that the steps add up to there is room for.
pub(crate) fn rows_with_room(tasks: usize, steps: &[u64]) -> usize
    requires { tasks ≤ length steps.now }
    ensures { result ≡ min (sum tasks (at steps.now)) 128 }
{
    let mut rows: u64 = 0;
    for i in 0..tasks {
        if MOST_ROWS - rows < steps[i] {
            return MOST_ROWS as usize;
        }
        rows += steps[i];
    }
    rows as usize
}

// Opens the table that the list holds into columns that are blank, and answers how many of its rows there is room for.
// It fills them where they lie: columns that are a result are copied on their way, which costs most of a call on few rows.
pub(crate) fn table_in(list: &[u8], table: &mut Columns) -> usize
    requires { table.old ≡ blank_of 0 0 }
    ensures { (columns.table_in table.new ≡ table_in list.now) × (result ≡ rows_in list.now) }
{
    table.processors = words::get(list, 0);
    table.tasks = words::get(list, 1);
    let chains = table.tasks.min(MOST_TASKS) as usize;
    words::get_field(list, 2, 3, chains, &mut table.period);
    words::get_field(list, 3, 3, chains, &mut table.deadline);
    words::get_field(list, 4, 3, chains, &mut table.steps);
    let rows = rows_with_room(chains, &table.steps);
    words::get_field(list, 98, 3, rows, &mut table.processor);
    words::get_field(list, 99, 3, rows, &mut table.priority);
    words::get_field(list, 100, 3, rows, &mut table.time);
    rows
}

// Writes a table into the list, and answers the number of its rows.
pub(crate) fn put_table(list: &mut [u8], table: &TableLists<'_>) -> RackAnswer
    requires { (table.now.tasks ≤ length table.now.steps.now) × (sum table.now.tasks (at table.now.steps.now) ≤ 128) }
    ensures { TablePut (table_in_lists table.now) list.old result list.new }
{
    let chains = table.tasks as usize;
    let rows = rows_with_room(chains, table.steps);
    words::put(list, 0, table.processors);
    words::put(list, 1, table.tasks);
    words::put_field(list, 2, 3, chains, table.period);
    words::put_field(list, 3, 3, chains, table.deadline);
    words::put_field(list, 4, 3, chains, table.steps);
    words::put_field(list, 98, 3, rows, table.processor);
    words::put_field(list, 99, 3, rows, table.priority);
    words::put_field(list, 100, 3, rows, table.time);
    RackAnswer {
        number: 0,
        value: rows as u64,
    }
}
