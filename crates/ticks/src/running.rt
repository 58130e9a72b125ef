// Which row runs on a processor.

ghost use Rattle.std.specs.Prelude.{◌≡◌, cond, [], ◌≤◌, ◌<◌, length};
ghost use Rattle.facts.specs.Filled.{tab};
ghost use Rattle.guards.specs.Moment.{moment_of};
ghost use Rattle.guards.specs.Running.{better, running};
ghost use Rattle.guards.specs.Rows.{plan_from};
ghost use Rattle.ticks.specs.Numbers.{number, numbers};
ghost use Rattle.ticks.specs.Steps.{Placed};

use guards::run::StateView;
use table::view::TableView;

// The row to run, among the best so far and one candidate more: the more urgent, and of equals the best so far.
#[tactic(auto, unfolding(crate::specs::Numbers::number, guards::specs::Running::better))]
fn next_best<T: TableView>(
    table: &T,
    best: Option<usize>,
    row: usize,
    candidate: bool,
) -> Option<usize>
    requires { (number best ≤ row) × (row < length (T.table table.now).priority) }
    ensures { number result ≡ cond candidate (better (plan_from 0 [] [] [] (T.table table.now).priority []) (number best) row) (number best) }
{
    if !candidate {
        return best;
    }
    match best {
        Some(other) if table.priority(row) <= table.priority(other) => best,
        _ => Some(row),
    }
}

// For each processor number up to 16 the row that runs.
pub(crate) fn running_rows<T: TableView, S: StateView>(
    table: &T,
    state: &S,
    rows: usize,
) -> [Option<usize>; 17]
    requires { Placed rows (T.table table.now).processor × (rows ≤ length (T.table table.now).priority) × (rows ≤ length (S.state state.now).released) × (rows ≤ length (S.state state.now).completed) }
    ensures { numbers result ≡ tab (running (plan_from rows [] [] (T.table table.now).processor (T.table table.now).priority []) (moment_of (S.state state.now))) 17 }
{
    let mut found = [None; 17];
    for row in 0..rows {
        let on = table.processor(row) as usize;
        let open = state.completed(row) < state.released(row);
        found[on] = next_best(table, found[on], row, open);
    }
    found
}
