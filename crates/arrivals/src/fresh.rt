// The call fresh start.

ghost use Rattle.std.specs.Prelude.{◌≡◌, OnErr};
ghost use Rattle.guards.specs.Outcome.{Outcome};
ghost use Rattle.guards.specs.Calls.{fresh_start};
ghost use Rattle.guards.specs.Lent.{Long, on_lists};
ghost use Rattle.guards.specs.Machine.{start};
ghost use Rattle.guards.specs.Moment.{state_with};

use guards::run::RunState;
use planned::rows::count_rows;
use table::refusal::Refusal;
use table::view::TableView;

// Sets the clock and so many rows to 0.
#[tactic(auto, using(crate::proofs::RowLemmas::cleared_none, crate::proofs::RowLemmas::cleared_more, crate::proofs::RowLemmas::cleared_long))]
fn clear<S: RunState>(state: &mut S, count: usize)
    requires { Long count (S.state state.old) }
    ensures same_place { S.names state.new ≡ S.names state.old }
    ensures state { S.state state.new ≡ state_with count start (S.state state.old) }
{
    state.set_clock(0);
    for row in 0..count {
        state.set_released(row, 0);
        state.set_completed(row, 0);
        state.set_used(row, 0);
        state.set_guard(row, 0);
    }
}

// A run begins: 5, 14; the clock and the plan's rows are 0.
pub fn fresh_start<T: TableView, S: RunState>(table: &T, state: &mut S) -> Result<u64, Refusal>
    ensures same_place { S.names state.new ≡ S.names state.old }
    ensures kept { OnErr result (state.new ≡ state.old) }
    ensures outcome { ◌≡◌ {A = Outcome} (record { answer = result; state = S.state state.new }) (on_lists (T.table table.now) (S.state state.old) (fresh_start (T.table table.now) (S.state state.old))) }
{
    let count = count_rows(table)? as usize;
    if !state.rows_held(count) {
        return Err(Refusal::StateDoesNotFit);
    }
    clear(state, count);
    // The answer of a fresh start is 0: `fresh_start` (guards, specs/Calls.antt), and the C host sees it.
    Ok(0)
}
