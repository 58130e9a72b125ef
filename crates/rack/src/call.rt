// A call on byte lists: the lists are opened, the call is made, and what it changed is written back.

ghost use Rattle.std.specs.Prelude.{◌≡◌, cond};
ghost use Rattle.table.specs.declared.refusal.Refusal.TheVariants.{NotAPlan, StateDoesNotFit};
ghost use Rattle.columns.specs.Columns as columns;
ghost use Rattle.guards.specs.Calls.{TickOutcome};
ghost use Rattle.rack.specs.RackCalls.{RackTickOutcome, called, rack_call, refused_as};

use crate::answer::RackAnswer;
use crate::states::{STATE_BYTES, put_called, state_in};
use crate::tables::{TABLE_BYTES, table_in};
use calls::arrive::arrive;
use calls::fresh::fresh_start;
use calls::tick::tick;
use columns::columns::Columns;
use guards::state::State;
use planned::check::is_plan;
use table::refusal::Refusal;

// What the host asks.
#[derive(Clone, Copy)]
pub enum Call {
    Fresh,
    Arrive(u64),
    Tick,
}

// Why a call is not tried whose state list is of another length.
fn untried(plan: bool) -> RackAnswer
    ensures { result ≡ refused_as (cond plan StateDoesNotFit NotAPlan) }
{
    if plan {
        return Refusal::StateDoesNotFit.into();
    }
    Refusal::NotAPlan.into()
}

// The call on a table and a state; a tick reads the done list and fills the release list.
// A match: `called` and `rack_call` (specs/RackCalls.antt), which may not change, are by case of `Call`.
#[tactic(auto, unfolding(crate::specs::RackCalls::called))]
fn called(
    call: Call,
    table: &Columns,
    state: &mut State,
    done: &[u8],
    out: &mut [u8],
) -> Result<u64, Refusal>
    ensures { ◌≡◌ {A = TickOutcome} (record { outcome = record { answer = result; state = state.new }; released = out.new }) (called call (columns.table_in table.now) state.old done.now out.old) }
{
    match call {
        Call::Fresh => fresh_start(table, state),
        Call::Arrive(task) => arrive(table, state, task),
        Call::Tick => tick(table, state, done, out),
    }
}

// The call on the table and the state that the lists hold.
pub(crate) fn make(
    call: Call,
    table: &[u8],
    state: &mut [u8],
    done: &[u8],
    out: &mut [u8],
) -> RackAnswer
    ensures { ◌≡◌ {A = RackTickOutcome} (record { outcome = record { answer = result; state = state.new }; released = out.new }) (rack_call call table.now state.old done.now out.old) }
{
    if table.len() != TABLE_BYTES {
        return Refusal::NotAPlan.into();
    }
    let mut opened = Columns::blank(0, 0);
    let rows = table_in(table, &mut opened);
    if state.len() != STATE_BYTES {
        return untried(is_plan(&opened));
    }
    let mut run = State {
        clock: 0,
        released: [0; 128],
        completed: [0; 128],
        used: [0; 128],
        guard: [0; 128],
    };
    state_in(state, rows, &mut run);
    let answer = called(call, &opened, &mut run, done, out);
    put_called(state, rows, answer, &run)
}
