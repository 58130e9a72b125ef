// The report's text: its rows, its tasks, its processors, and the whole.

ghost use Rattle.std.specs.Prelude.{◌≡◌, ◌+◌};
ghost use Rattle.facts.specs.Filled.{joined};
ghost use Rattle.table.specs.Plan.{deadline_from};
ghost use Rattle.table.specs.Table.{at};
ghost use Rattle.table.specs.TableLaws.{Long};
ghost use Rattle.report.specs.Findings.{listing_of};
ghost use Rattle.report.specs.Load.{load_of};
ghost use Rattle.report.specs.Listed.{Filled, listed, slack_at};
ghost use Rattle.report.specs.Pages.{added, written};
ghost use Rattle.report.specs.Report.{processor_lines, report_of, row_lines, task_lines};

use crate::findings::Findings;
use crate::load::load_of;
use crate::page::Page;
use table::deadline::in_force;
use table::view::TableView;

// Appends the lines of each row.
#[tactic(auto, using(crate::specs::Pages::joined_zero, crate::specs::Pages::joined_next))]
fn append_rows(page: &mut Page, found: &Findings<'_>)
    requires { Long found.now.rows found.now.busy.now found.now.instances.now found.now.bounds.now }
    ensures { written page.new ≡ added (joined found.now.rows (λ i. row_lines (i + 1) (at found.now.busy.now i) (at found.now.instances.now i) (at found.now.bounds.now i))) (written page.old) }
{
    for i in 0..found.rows {
        page.row(
            i as u64 + 1,
            found.busy[i],
            found.instances[i],
            found.bounds[i],
        );
    }
}

// Appends the lines of each task.
#[tactic(auto, using(crate::specs::Pages::joined_zero, crate::specs::Pages::joined_next))]
fn append_tasks<T: TableView>(page: &mut Page, table: &T, found: &Findings<'_>)
    requires { Filled (listing_of (T.table table.now) found.now) }
    ensures { written page.new ≡ added (joined (T.table table.now).tasks (λ i. task_lines (i + 1) (at found.now.chains.now i) (deadline_from (at (T.table table.now).period i) (at (T.table table.now).deadline i)) (slack_at found.now.slack.now i))) (written page.old) }
{
    let tasks = table.tasks() as usize;
    for i in 0..tasks {
        let due = in_force(table.period(i), table.deadline(i));
        page.task(i as u64 + 1, found.chains[i], due, found.slack[i]);
    }
}

// Appends the lines of each processor.
#[tactic(auto, using(crate::specs::Pages::joined_zero, crate::specs::Pages::joined_next))]
fn append_processors<T: TableView>(page: &mut Page, table: &T, found: &Findings<'_>)
    requires { Filled (listing_of (T.table table.now) found.now) }
    ensures { written page.new ≡ added (joined (T.table table.now).processors (λ q. processor_lines (q + 1) (load_of found.now.rows (at (T.table table.now).processor) (at (T.table table.now).time) (at found.now.periods.now) (q + 1)))) (written page.old) }
{
    let processors = table.processors();
    for i in 0..processors {
        let load = load_of(table, found.periods, found.rows, i + 1);
        page.processor(i + 1, load);
    }
}

// Appends the whole report to a page that is still empty.
#[tactic(auto, using(crate::specs::Pages::added_both), unfolding(crate::specs::Report::report_of, crate::specs::Listed::listed))]
pub(crate) fn append_report<T: TableView>(page: &mut Page, table: &T, found: &Findings<'_>)
    requires { Filled (listing_of (T.table table.now) found.now) }
    ensures { written page.new ≡ added (report_of (listed (listing_of (T.table table.now) found.now))) (written page.old) }
{
    page.line(b"report", 1);
    append_rows(page, found);
    append_tasks(page, table, found);
    append_processors(page, table, found);
    page.line(b"accepted", found.accepted);
}
