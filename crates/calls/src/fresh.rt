// The call fresh start on a kept state.

ghost use Rattle.std.specs.Prelude.{◌≡◌};
ghost use Rattle.guards.specs.Calls.{fresh_start};
ghost use Rattle.guards.specs.Outcome.{Outcome};

use arrivals::fresh;
use guards::state::State;
use table::refusal::Refusal;
use table::view::TableView;

// A run begins: 5; the clock and the plan's rows are 0.
#[tactic(auto, using(guards::specs::LentLaws::lent_sized))]
pub fn fresh_start<T: TableView>(table: &T, state: &mut State) -> Result<u64, Refusal>
    ensures { ◌≡◌ {A = Outcome} (record { answer = result; state = state.new }) (fresh_start (T.table table.now) state.old) }
{
    // Says to the proof how long the state's lists are; nothing of it is run.
    prove!(state.room() == 128);
    fresh::fresh_start(table, state)
}
