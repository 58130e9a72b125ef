// The calls of the rack's C boundary: table and state as byte lists (docs/LAYOUTS.md), every call answered by a number and a
// value. The archive for C is crates/rack_c, which gives each of them its C name.

#![tactic(auto)]

pub mod answer;
pub mod call;
mod states;
mod tables;

ghost use Rattle.std.specs.Prelude.{◌≡◌};
ghost use Rattle.rack.specs.RackCalls.{PlanReported, RackTickOutcome, StateOutcome, TableOutcome, rack_arrive, rack_fresh, rack_table, rack_tick};

use answer::RackAnswer;
use call::{Call, make};
use planfile::lists::TableListsMut;
use planfile::read::read;
use report::report_file;
use table::refusal::Refusal;
use tables::{TABLE_BYTES, put_table};

// Reads a plan file into a table list: 7 for a list shorter than the layout, then the reader's refusals; the answer is the
// number of rows.
pub fn rack_table(file: &[u8], table: &mut [u8]) -> RackAnswer
    ensures { ◌≡◌ {A = TableOutcome} (record { answer = result; table = table.new }) (rack_table file.now table.old) }
{
    if table.len() < TABLE_BYTES {
        return Refusal::TooShort(TABLE_BYTES as u64).into();
    }
    let mut lists = TableListsMut {
        period: &mut [0; 32],
        deadline: &mut [0; 32],
        steps: &mut [0; 32],
        processor: &mut [0; 128],
        priority: &mut [0; 128],
        time: &mut [0; 128],
    };
    match read(file, &mut lists) {
        Ok(counts) => put_table(table, &lists.table(counts)),
        Err(refusal) => refusal.into(),
    }
}

// A fresh start of the guards: 5, then 14 for a wrong length alone; the clock and the plan's rows are set to 0.
pub fn rack_fresh(table: &[u8], state: &mut [u8]) -> RackAnswer
    ensures { ◌≡◌ {A = StateOutcome} (record { answer = result; state = state.new }) (rack_fresh table.now state.old) }
{
    make(Call::Fresh, table, state, &[], &mut [])
}

// A task arrives: 5, 14, 8, 9; the answer is the number of its chain's first row, which it releases.
pub fn rack_arrive(table: &[u8], state: &mut [u8], task: u64) -> RackAnswer
    ensures { ◌≡◌ {A = StateOutcome} (record { answer = result; state = state.new }) (rack_arrive table.now state.old task) }
{
    make(Call::Arrive(task), table, state, &[], &mut [])
}

// One tick: 5, 14, 10, 7, 13, 11, 12; the answer is the new clock, and the release list has 1 for each row released.
pub fn rack_tick(table: &[u8], state: &mut [u8], done: &[u8], released: &mut [u8]) -> RackAnswer
    ensures { ◌≡◌ {A = RackTickOutcome} (record { outcome = record { answer = result; state = state.new }; released = released.new }) (rack_tick table.now state.old done.now released.old) }
{
    make(Call::Tick, table, state, done, released)
}

// Reads a plan file and writes its report: the reader's refusals, 6, 7; the answer is the number of bytes.
pub fn plan_report(file: &[u8], out: &mut [u8]) -> RackAnswer
    ensures { PlanReported file.now out.old result out.new }
{
    report_file(file, out).into()
}
