// Steps 4 and 5 of a tick: guards on idle processors come down to the clock, and rows that are due release an instance.

ghost use Rattle.std.specs.Prelude.{◌≡◌, cond, not, ◌&&◌, [], ◌+◌, ◌≤◌, ◌<◌, leb, ltb, length};
ghost use Rattle.facts.specs.Filled.{filled, tab};
ghost use Rattle.table.specs.Table.{at};
ghost use Rattle.table.specs.Refusals.{last_clock};
ghost use Rattle.guards.specs.Lent.{Long};
ghost use Rattle.guards.specs.Moment.{moment_of, state_with};
ghost use Rattle.guards.specs.Machine.{due, idle, let_go};
ghost use Rattle.guards.specs.Rows.{plan_from};
ghost use Rattle.guards.specs.Stored.{with_guard, with_released};
ghost use Rattle.ticks.specs.Steps.{Placed, Releasing, first_in, idle_in, opened_where};

use guards::rows::PlanRows;
use guards::run::{ArrivalState, StateView};
use table::view::TableView;

// For each processor number up to 16 whether a row of it is open.
// Table and state are no struct: a tick holds the table shared and the state by &mut, and one made for this call alone is no plainer.
pub(crate) fn busy_processors<T: TableView, S: StateView>(
    table: &T,
    state: &S,
    rows: usize,
) -> [bool; 17]
    requires { Placed rows (T.table table.now).processor × (rows ≤ length (S.state state.now).released) × (rows ≤ length (S.state state.now).completed) }
    ensures { result ≡ tab (λ x. not (idle (plan_from rows [] [] (T.table table.now).processor [] []) (moment_of (S.state state.now)) x)) 17 }
{
    let mut busy = [false; 17];
    for row in 0..rows {
        if state.completed(row) < state.released(row) {
            busy[table.processor(row) as usize] = true;
        }
    }
    busy
}

// The guard of a row after step 4.
fn opened_guard(first: bool, busy: bool, clock: u64, guard: u64) -> u64
    ensures { result ≡ cond (not first && not busy) clock guard }
{
    if first || busy {
        return guard;
    }
    clock
}

// Step 4, given which processors are busy.
// Table, state and lists are no struct: the state is lent by &mut and the others shared, and one of both is no plainer. Nor is `Long` in a
// type: whether a state has its rows is found out by the call, at each call anew.
pub(crate) fn open_guards<T: TableView, S: ArrivalState>(
    table: &T,
    state: &mut S,
    rows: &PlanRows<'_>,
    busy: &[bool],
)
    requires placed { Placed rows.now.count (T.table table.now).processor }
    requires lists { (17 ≤ length busy.now) × (rows.now.count ≤ length rows.now.firsts.now) }
    requires long { Long rows.now.count (S.state state.old) }
    ensures same_place { S.names state.new ≡ S.names state.old }
    ensures state { S.state state.new ≡ state_with rows.now.count (opened_where (first_in rows.now.firsts.now) (idle_in (T.table table.now).processor busy.now) (moment_of (S.state state.old))) (S.state state.old) }
{
    let clock = state.clock();
    for row in 0..rows.count {
        let on = table.processor(row) as usize;
        let guard = state.guard(row);
        state.set_guard(row, opened_guard(rows.firsts[row], busy[on], clock, guard));
    }
}

// Whether step 5 releases a row, given what the row before it has completed.
fn is_due(first: bool, released: u64, before: u64, guard: u64, clock: u64) -> bool
    ensures { result ≡ (not first && (ltb released before && leb guard clock)) }
{
    !first && released < before && guard <= clock
}

// The guard of a row after step 5.
// `clock ≤ last_clock` is a clause, here and below: it bounds one number, and a struct of one field is no plainer.
fn guard_after(due: bool, clock: u64, period: u64, guard: u64) -> u64
    requires { (clock ≤ last_clock) × (period ≤ 1000000) }
    ensures { result ≡ cond due (clock + period) guard }
{
    if due {
        return clock + period;
    }
    guard
}

// Step 5 at a row, given what the row before it has completed: whether it is due.
fn release_row<S: ArrivalState>(
    state: &mut S,
    rows: &PlanRows<'_>,
    row: usize,
    clock: u64,
    before: u64,
) -> bool
    requires here { (row < length rows.now.periods.now) × (row < length rows.now.firsts.now) }
    requires long { Long (row + 1) (S.state state.old) }
    requires small { (clock ≤ last_clock) × ((at (S.state state.old).released row ≤ last_clock + 1) × (at rows.now.periods.now row ≤ 1000000)) }
    ensures same_place { S.names state.new ≡ S.names state.old }
    ensures due { result ≡ (not (first_in rows.now.firsts.now row) && (ltb (at (S.state state.old).released row) before && leb (at (S.state state.old).guard row) clock)) }
    ensures state { S.state state.new ≡ with_guard (with_released (S.state state.old) row (cond result (at (S.state state.old).released row + 1) (at (S.state state.old).released row))) row (cond result (clock + at rows.now.periods.now row) (at (S.state state.old).guard row)) }
{
    let released = state.released(row);
    let guard = state.guard(row);
    let due = is_due(rows.firsts[row], released, before, guard, clock);
    state.set_released(row, released + u64::from(due));
    state.set_guard(row, guard_after(due, clock, rows.periods[row], guard));
    due
}

// Step 5, with a byte for each row in the release list.
pub(crate) fn let_go<S: ArrivalState>(state: &mut S, rows: &PlanRows<'_>, out: &mut [u8])
    requires reads { Releasing rows.now.count rows.now.periods.now rows.now.firsts.now (S.state state.old).clock (S.state state.old).released (S.state state.old).completed (S.state state.old).guard out.old }
    requires long { Long rows.now.count (S.state state.old) }
    ensures same_place { S.names state.new ≡ S.names state.old }
    ensures state { S.state state.new ≡ state_with rows.now.count (let_go (plan_from rows.now.count rows.now.periods.now rows.now.firsts.now [] [] []) (moment_of (S.state state.old))) (S.state state.old) }
    ensures bytes { out.new ≡ filled (λ r. cond (due (plan_from rows.now.count rows.now.periods.now rows.now.firsts.now [] [] []) (moment_of (S.state state.old)) r) 1 0) rows.now.count out.old }
{
    let clock = state.clock();
    let mut before = state.completed(0);
    for row in 0..rows.count {
        let due = release_row(state, rows, row, clock, before);
        out[row] = u8::from(due);
        before = state.completed(row);
    }
}
