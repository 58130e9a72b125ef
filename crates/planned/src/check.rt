// The test "is a plan", of whatever holds the table.

ghost use Rattle.std.specs.Prelude.{◌≡◌, ◌≤◌};
ghost use Rattle.table.specs.Keys.{period_key, processor_key};
ghost use Rattle.table.specs.Table.{entries_right, entry_right, is_plan, long_enough};

use table::keys;
use table::limits::MOST_ROWS;
use table::ranges::in_range;
use table::view::TableView;

// Whether three lists have so many entries at least.
#[tactic(auto, unfolding(table::specs::Table::long_enough))]
pub fn long_enough(n: usize, a: &[u64], b: &[u64], c: &[u64]) -> bool
    ensures { result ≡ long_enough n a.now b.now c.now }
{
    if a.len() < n {
        return false;
    }
    if b.len() < n {
        return false;
    }
    n <= c.len()
}

// Whether three values are in the ranges of a key and of the two keys after it.
#[tactic(auto, unfolding(table::specs::Table::entry_right))]
fn entry_right(key: usize, own: u64, a: u64, b: u64, c: u64) -> bool
    requires { key ≤ 7 }
    ensures { result ≡ entry_right key own a b c }
{
    if !in_range(key, own, a) {
        return false;
    }
    if !in_range(key + 1, own, b) {
        return false;
    }
    in_range(key + 2, own, c)
}

// Whether so many tasks are held, all right.
// Apart from `rows_right`: the two read other getters, and one function that takes three closures for them is no plainer.
fn tasks_right<T: TableView>(table: &T, n: usize) -> bool
    ensures { result ≡ entries_right n period_key 0 (T.table table.now).period (T.table table.now).deadline (T.table table.now).steps }
{
    if !table.tasks_held(n) {
        return false;
    }
    for i in 0..n {
        if !entry_right(
            keys::PERIOD,
            0,
            table.period(i),
            table.deadline(i),
            table.steps(i),
        ) {
            return false;
        }
    }
    true
}

// Whether so many rows are held, all right.
fn rows_right<T: TableView>(table: &T, n: usize, processors: u64) -> bool
    ensures { result ≡ entries_right n processor_key processors (T.table table.now).processor (T.table table.now).priority (T.table table.now).time }
{
    if !table.rows_held(n) {
        return false;
    }
    for i in 0..n {
        if !entry_right(
            keys::PROCESSOR,
            processors,
            table.processor(i),
            table.priority(i),
            table.time(i),
        ) {
            return false;
        }
    }
    true
}

// Whether the table is a plan by the ranges.
pub fn is_plan<T: TableView>(table: &T) -> bool
    ensures { result ≡ is_plan (T.table table.now) }
{
    let processors = table.processors();
    if !in_range(keys::PROCESSORS, 0, processors) {
        return false;
    }
    let tasks = table.tasks();
    if !in_range(keys::TASKS, 0, tasks) {
        return false;
    }
    if !tasks_right(table, tasks as usize) {
        return false;
    }
    let rows = table.first_row(tasks as usize);
    if MOST_ROWS < rows {
        return false;
    }
    rows_right(table, rows as usize, processors)
}
