// The refusals of an arrival that the table, the state and the task decide: 5, 14, 8.

ghost use Rattle.std.specs.Prelude.{◌≡◌, IfErr, IfOk, leb, ◌&&◌};
ghost use Rattle.guards.specs.Calls as calls;
ghost use Rattle.guards.specs.Calls.{refused};
ghost use Rattle.guards.specs.Lent.{on_lists};
ghost use Rattle.arrivals.specs.Allowed.{Allowed};

use fitting::fits::rows_fit;
use guards::rows::PlanRows;
use guards::run::StateView;
use planned::rows::view_rows;
use table::refusal::Refusal;
use table::view::TableView;

// Whether the task is one of so many.
fn has_task(tasks: u64, task: u64) -> bool
    ensures { result ≡ leb 1 task && leb task tasks }
{
    (1..=tasks).contains(&task)
}

// The first row of the task, counted from 0, at which an instance may arrive.
pub(crate) fn first_row<T: TableView, S: StateView>(
    table: &T,
    state: &S,
    task: u64,
) -> Result<usize, Refusal>
    ensures allowed { IfOk result (λ row. Allowed (T.table table.now) (S.state state.now) task row) }
    ensures refused { IfErr result (λ refusal. refused refusal (S.state state.now) ≡ on_lists (T.table table.now) (S.state state.now) (calls.arrive (T.table table.now) (S.state state.now) task)) }
{
    // Two lists side by side: `view_rows` fills the two that its contract names.
    let mut periods = [0u64; 128];
    let mut firsts = [false; 128];
    let count = view_rows(table, &mut periods, &mut firsts)?;
    let rows = PlanRows {
        count: count as usize,
        periods: &periods,
        firsts: &firsts,
    };
    if !rows_fit(&rows, table, state) {
        return Err(Refusal::StateDoesNotFit);
    }
    if !has_task(table.tasks(), task) {
        return Err(Refusal::NoSuchTask(task));
    }
    let row = table.first_row((task - 1) as usize);
    Ok(row as usize)
}
