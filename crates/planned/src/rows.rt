// A plan's rows with what each takes from its task.

ghost use Rattle.std.specs.Prelude.{◌≡◌};
ghost use Rattle.planned.specs.Counted.{Counted};
ghost use Rattle.planned.specs.View.{Viewed, viewed};

use crate::check::is_plan;
use table::refusal::Refusal;
use table::view::TableView;

// How many rows a plan has: 5 where the table is none.
pub fn count_rows<T: TableView>(table: &T) -> Result<u64, Refusal>
    ensures { Counted (T.table table.now) result }
{
    if !is_plan(table) {
        return Err(Refusal::NotAPlan);
    }
    let tasks = table.tasks();
    Ok(table.first_row(tasks as usize))
}

// A plan's rows: each row's period, and whether it is the first of its chain.
pub fn view_rows<T: TableView>(
    table: &T,
    periods: &mut [u64],
    firsts: &mut [bool],
) -> Result<u64, Refusal>
    ensures { ◌≡◌ {A = Viewed} (record { answer = result; period = periods.new; first = firsts.new }) (viewed (T.table table.now) periods.old firsts.old) }
{
    let rows = count_rows(table)?;
    let count = rows as usize;
    if periods.len() < count {
        return Err(Refusal::TooShort(rows));
    }
    if firsts.len() < count {
        return Err(Refusal::TooShort(rows));
    }
    let mut task: usize = 0;
    let mut start: usize = 0;
    let mut end = table.steps(0) as usize;
    for row in 0..count {
        // Where a task's rows are all laid, the next task's begin. The steps are read only there, since every row would
        // else wait for those of the row before it.
        if row == end {
            start = row;
            task += 1;
            end = row + table.steps(task) as usize;
        }
        periods[row] = table.period(task);
        firsts[row] = start == row;
    }
    Ok(rows)
}
