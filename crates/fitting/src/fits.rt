// When a run state fits a plan's rows, of whatever holds the table and the state.

ghost use Rattle.std.specs.Prelude.{◌≡◌, ◌+◌, ◌≤◌, leb, []};
ghost use Rattle.facts.specs.Tests.{all};
ghost use Rattle.guards.specs.Moment.{moment_of};
ghost use Rattle.guards.specs.Fits.{row_fits};
ghost use Rattle.guards.specs.Rows.{counts_fit, plan_from};
ghost use Rattle.table.specs.Refusals.{last_clock};
ghost use Rattle.guards.specs.InRows.{rows_of};
ghost use Rattle.fitting.specs.Chains.{releases_fit};
ghost use Rattle.guards.specs.Lent.{Fitting, rows_fit_in, stand};

use guards::rows::PlanRows;
use guards::run::StateView;
use guards::state::LAST_CLOCK;
use table::limits::MOST_ROWS;
use table::view::TableView;

// Whether a row's instances and used ticks fit: completed ≤ released ≤ clock + 1, used < time, and used is 0 where
// nothing is open.
// `clock ≤ last_clock` is a clause: it bounds one number, and a struct of one field is no plainer.
#[tactic(auto, unfolding(guards::specs::Rows::counts_fit))]
fn counts_fit(clock: u64, released: u64, completed: u64, used: u64, time: u64) -> bool
    requires { clock ≤ last_clock }
    ensures { result ≡ counts_fit clock released completed used time }
{
    if released < completed {
        return false;
    }
    if clock + 1 < released {
        return false;
    }
    if time <= used {
        return false;
    }
    if completed < released {
        return true;
    }
    used == 0
}

// Whether a row's guard is at most a period ahead of the clock. Their sum need not fit, so their distance is compared.
#[tactic(auto, using(crate::proofs::GuardTests::guard_ahead))]
fn guard_fits(clock: u64, period: u64, guard: u64) -> bool
    ensures { result ≡ leb guard (clock + period) }
{
    guard.saturating_sub(clock) <= period
}

// Whether a row's releases fit its place in its chain, given what the row before it has completed.
// `clock ≤ last_clock` is a clause: it bounds one number, and a struct of one field is no plainer.
#[tactic(auto, unfolding(crate::specs::Chains::releases_fit))]
fn releases_fit(first: bool, clock: u64, released: u64, guard: u64, before: u64) -> bool
    requires { clock ≤ last_clock }
    ensures { result ≡ releases_fit first clock released guard before }
{
    if first {
        if released == clock + 1 {
            return clock < guard;
        }
        return true;
    }
    if before < released {
        return false;
    }
    if released < before {
        return clock < guard;
    }
    true
}

// Whether each of a plan's rows has its period, its time and whether it is first.
#[tactic(auto, unfolding(guards::specs::Lent::stand))]
fn rows_stand<T: TableView>(rows: &PlanRows<'_>, table: &T) -> bool
    ensures { result ≡ stand rows.now.count rows.now.periods.now rows.now.firsts.now (T.table table.now).time }
{
    if MOST_ROWS < rows.count as u64 {
        return false;
    }
    if rows.periods.len() < rows.count {
        return false;
    }
    if rows.firsts.len() < rows.count {
        return false;
    }
    table.times_held(rows.count)
}

// Whether each row fits, where all have their places.
fn each_fits<T: TableView, S: StateView>(rows: &PlanRows<'_>, table: &T, state: &S) -> bool
    requires { Fitting rows.now.count rows.now.periods.now rows.now.firsts.now (T.table table.now).time (S.state state.now) }
    ensures { result ≡ all rows.now.count (row_fits (plan_from rows.now.count rows.now.periods.now rows.now.firsts.now [] [] (T.table table.now).time) (moment_of (S.state state.now))) }
{
    if rows.count == 0 {
        return true;
    }
    let clock = state.clock();
    // What the row before has completed stays at hand: read again at each row it takes half as long again.
    let mut before = state.completed(0);
    for row in 0..rows.count {
        let released = state.released(row);
        let completed = state.completed(row);
        if !counts_fit(clock, released, completed, state.used(row), table.time(row)) {
            return false;
        }
        let guard = state.guard(row);
        if !guard_fits(clock, rows.periods[row], guard) {
            return false;
        }
        if !releases_fit(rows.firsts[row], clock, released, guard, before) {
            return false;
        }
        before = completed;
    }
    true
}

// Whether a plan's rows, so many, stand in their lists and the state fits them.
#[tactic(auto, using(facts::specs::TestsLaws::and_false), unfolding(guards::specs::Lent::rows_fit_in, guards::specs::Rows::rows_fit, guards::specs::Fits::fits, guards::specs::Moment::moment_of))]
pub fn rows_fit<T: TableView, S: StateView>(rows: &PlanRows<'_>, table: &T, state: &S) -> bool
    ensures { result ≡ rows_fit_in (rows_of rows.now) (T.table table.now).time (S.state state.now) }
{
    if !rows_stand(rows, table) {
        return false;
    }
    if !state.rows_held(rows.count) {
        return false;
    }
    if LAST_CLOCK < state.clock() {
        return false;
    }
    each_fits(rows, table, state)
}
