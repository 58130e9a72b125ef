// The call arrive.

ghost use Rattle.std.specs.Prelude.{◌≡◌, OnErr};
ghost use Rattle.guards.specs.Outcome.{Outcome};
ghost use Rattle.guards.specs.Calls as calls;
ghost use Rattle.guards.specs.Lent.{on_lists};

use crate::admit::first_row;
use guards::run::ArrivalState;
use table::refusal::Refusal;
use table::view::TableView;

// An instance of the task arrives at its first row: 5, 14, 8, 9; the answer is the number of that row.
pub fn arrive<T: TableView, S: ArrivalState>(
    table: &T,
    state: &mut S,
    task: u64,
) -> Result<u64, Refusal>
    ensures same_place { S.names state.new ≡ S.names state.old }
    ensures kept { OnErr result (state.new ≡ state.old) }
    ensures outcome { ◌≡◌ {A = Outcome} (record { answer = result; state = S.state state.new }) (on_lists (T.table table.now) (S.state state.old) (calls.arrive (T.table table.now) (S.state state.old) task)) }
{
    let row = first_row(table, state, task)?;
    let clock = state.clock();
    let due = state.guard(row);
    if clock < due {
        return Err(Refusal::TooSoon(due));
    }
    let released = state.released(row);
    state.set_released(row, released + 1);
    state.set_guard(row, clock + table.period((task - 1) as usize));
    Ok(row as u64 + 1)
}
