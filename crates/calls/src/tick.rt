// The call tick on a kept state.

ghost use Rattle.std.specs.Prelude.{◌≡◌};
ghost use Rattle.guards.specs.Calls as calls;
ghost use Rattle.guards.specs.Calls.{TickOutcome};

use guards::state::State;
use table::refusal::Refusal;
use table::view::TableView;
use ticks::tick as ticking;

// One tick: 5, 14, 10, 7, 13, 11, 12; the answer is the new clock. The done list has a byte for each processor, and the release list gets one
// for each row.
#[tactic(auto, using(guards::specs::LentLaws::tick_lent_sized))]
pub fn tick<T: TableView>(
    table: &T,
    state: &mut State,
    done: &[u8],
    released: &mut [u8],
) -> Result<u64, Refusal>
    ensures { ◌≡◌ {A = TickOutcome} (record { outcome = record { answer = result; state = state.new }; released = released.new }) (calls.tick (T.table table.now) state.old done.now released.old) }
{
    // Says to the proof how long the state's lists are; nothing of it is run.
    prove!(state.room() == 128);
    ticking::tick(table, state, done, released)
}
