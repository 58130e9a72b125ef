// The report (document 01, "One plan and its report"): from a table, or from a file's bytes, to the report's bytes in one
// call.
#![tactic(auto)]

mod delivery;
mod findings;
mod load;
mod page;
mod sections;

ghost use Rattle.std.specs.Prelude.{◌≡◌};
ghost use Rattle.planfile.specs.Answered.{table_in};
ghost use Rattle.planfile.specs.Lent.{lists_in};
ghost use Rattle.planned.specs.Lists.{table_in_lists};
ghost use Rattle.report.specs.ViewedLaws.{Viewed};
ghost use Rattle.report.specs.Reporting.{FileReported, Reported};

use crate::delivery::deliver_report;
use crate::findings::Findings;
use bounds::bound;
use bounds::lists::BoundLists;
use planfile::lists::TableListsMut;
use planfile::read::read;
use planned::lists::TableLists;
use planned::rows::view_rows;
use table::refusal::Refusal;
use table::view::TableView;

// Reports a table: its bounds as text in the lent output.
pub fn report<T: TableView>(table: &T, out: &mut [u8]) -> Result<u64, Refusal>
    ensures { Reported (T.table table.now) out.old (record { answer = result; out = out.new }) }
{
    // Two lists side by side: `view_rows` fills the two that its contract names.
    let mut periods = [0u64; 128];
    let mut firsts = [false; 128];
    let rows = view_rows(table, &mut periods, &mut firsts)?;
    report_plan(table, rows as usize, &periods, out)
}

// Reports a plan, given how many rows it has and the period of each.
fn report_plan<T: TableView>(
    table: &T,
    rows: usize,
    periods: &[u64],
    out: &mut [u8],
) -> Result<u64, Refusal>
    requires { Viewed (T.table table.now) rows periods.now }
    ensures { Reported (T.table table.now) out.old (record { answer = result; out = out.new }) }
{
    let mut lists = BoundLists {
        busy: &mut [0u64; 128],
        instances: &mut [0u64; 128],
        bounds: &mut [0u64; 128],
        chains: &mut [0u64; 32],
        slack: &mut [0i64; 32],
    };
    let accepted = bound(table, &mut lists)?;
    let found = Findings::of(rows, periods, &lists, accepted);
    deliver_report(table, &found, out)
}

// Reports a file: reads its table, and reports that.
pub fn report_file(file: &[u8], out: &mut [u8]) -> Result<u64, Refusal>
    ensures { FileReported file.now out.old (record { answer = result; out = out.new }) }
{
    let mut lists = TableListsMut {
        period: &mut [0u64; 32],
        deadline: &mut [0u64; 32],
        steps: &mut [0u64; 32],
        processor: &mut [0u64; 128],
        priority: &mut [0u64; 128],
        time: &mut [0u64; 128],
    };
    let counts = read(file, &mut lists)?;
    report(&lists.table(counts), out)
}
