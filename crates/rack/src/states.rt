// State lists: a state's words in a byte list.

ghost use Rattle.std.specs.Prelude.{◌≡◌};
ghost use Rattle.guards.specs.Outcome.{Outcome};
ghost use Rattle.rack.specs.Layouts.{state_in, with_state};
ghost use Rattle.rack.specs.LayoutsLaws.{blank_state};
ghost use Rattle.rack.specs.RackCalls.{StateOutcome, kept_in};

use crate::answer::RackAnswer;
use guards::state::State;
use table::refusal::Refusal;

// The length of a state list.
pub(crate) const STATE_BYTES: usize = 4104;

// Opens the state that the list holds for a plan of so many rows into a state of zeros, where it lies.
// List, rows and state are no struct, here and below: `state_in`, `with_state` and `kept_in` in the contracts take each.
pub(crate) fn state_in(list: &[u8], rows: usize, state: &mut State)
    requires { state.old ≡ blank_state }
    ensures { state.new ≡ state_in rows list.now }
{
    state.clock = words::get(list, 0);
    words::get_field(list, 1, 4, rows, &mut state.released);
    words::get_field(list, 2, 4, rows, &mut state.completed);
    words::get_field(list, 3, 4, rows, &mut state.used);
    words::get_field(list, 4, 4, rows, &mut state.guard);
}

// Writes the state of a plan of so many rows into the list.
fn put_state(list: &mut [u8], rows: usize, state: &State)
    ensures { list.new ≡ with_state rows state.now list.old }
{
    words::put(list, 0, state.clock);
    words::put_field(list, 1, 4, rows, &state.released);
    words::put_field(list, 2, 4, rows, &state.completed);
    words::put_field(list, 3, 4, rows, &state.used);
    words::put_field(list, 4, 4, rows, &state.guard);
}

// Writes what a call left into the list if the call is taken, and answers the host.
pub(crate) fn put_called(
    list: &mut [u8],
    rows: usize,
    answer: Result<u64, Refusal>,
    state: &State,
) -> RackAnswer
    ensures { ◌≡◌ {A = StateOutcome} (record { answer = result; state = list.new }) (kept_in rows list.old (record { answer = answer; state = state.now })) }
{
    match answer {
        Ok(value) => {
            put_state(list, rows, state);
            RackAnswer { number: 0, value }
        }
        Err(refusal) => refusal.into(),
    }
}
