// The call arrive on a kept state.

ghost use Rattle.std.specs.Prelude.{◌≡◌};
ghost use Rattle.guards.specs.Calls as calls;
ghost use Rattle.guards.specs.Outcome.{Outcome};

use arrivals::arrive as arrival;
use guards::state::State;
use table::refusal::Refusal;
use table::view::TableView;

// An instance of the task arrives at its first row: 5, 14, 8, 9; the answer is the number of that row.
#[tactic(auto, using(guards::specs::LentLaws::lent_sized))]
pub fn arrive<T: TableView>(table: &T, state: &mut State, task: u64) -> Result<u64, Refusal>
    ensures { ◌≡◌ {A = Outcome} (record { answer = result; state = state.new }) (calls.arrive (T.table table.now) state.old task) }
{
    // Says to the proof how long the state's lists are; nothing of it is run.
    prove!(state.room() == 128);
    arrival::arrive(table, state, task)
}
