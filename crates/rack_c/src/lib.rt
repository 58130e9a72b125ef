// The rack's C boundary as a static library: what include/rack.h declares. Each function is rack's own, under its C name, and
// promises what rack's promises.

#![tactic(auto)]

ghost use Rattle.std.specs.Prelude.{◌≡◌};
ghost use Rattle.rack.specs.RackCalls.{PlanReported, RackTickOutcome, StateOutcome, TableOutcome, rack_arrive, rack_fresh, rack_table, rack_tick};

use rack::answer::RackAnswer;

// Reads a plan file into a table list: 7 for a list shorter than the layout, then the reader's refusals; the answer is the
// number of rows.
#[unsafe(no_mangle)]
pub extern "C" fn rack_table(file: &[u8], table: &mut [u8]) -> RackAnswer
    ensures { ◌≡◌ {A = TableOutcome} (record { answer = result; table = table.new }) (rack_table file.now table.old) }
{
    rack::rack_table(file, table)
}

// A fresh start of the guards: 5, then 14 for a wrong length alone; the clock and the plan's rows are set to 0.
#[unsafe(no_mangle)]
pub extern "C" fn rack_fresh(table: &[u8], state: &mut [u8]) -> RackAnswer
    ensures { ◌≡◌ {A = StateOutcome} (record { answer = result; state = state.new }) (rack_fresh table.now state.old) }
{
    rack::rack_fresh(table, state)
}

// A task arrives: 5, 14, 8, 9; the answer is the number of its chain's first row, which it releases.
#[unsafe(no_mangle)]
pub extern "C" fn rack_arrive(table: &[u8], state: &mut [u8], task: u64) -> RackAnswer
    ensures { ◌≡◌ {A = StateOutcome} (record { answer = result; state = state.new }) (rack_arrive table.now state.old task) }
{
    rack::rack_arrive(table, state, task)
}

// One tick: 5, 14, 10, 7, 13, 11, 12; the answer is the new clock, and the release list has 1 for each row released.
#[unsafe(no_mangle)]
pub extern "C" fn rack_tick(
    table: &[u8],
    state: &mut [u8],
    done: &[u8],
    released: &mut [u8],
) -> RackAnswer
    ensures { ◌≡◌ {A = RackTickOutcome} (record { outcome = record { answer = result; state = state.new }; released = released.new }) (rack_tick table.now state.old done.now released.old) }
{
    rack::rack_tick(table, state, done, released)
}

// Reads a plan file and writes its report: the reader's refusals, 6, 7; the answer is the number of bytes.
#[unsafe(no_mangle)]
pub extern "C" fn plan_report(file: &[u8], out: &mut [u8]) -> RackAnswer
    ensures { PlanReported file.now out.old result out.new }
{
    rack::plan_report(file, out)
}
