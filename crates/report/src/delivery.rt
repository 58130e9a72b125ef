// The report's bytes in the lent output, if that has room for all of them.

ghost use Rattle.std.specs.Prelude.{◌≡◌, ◌≤◌, length};
ghost use Rattle.report.specs.Findings.{listing_of};
ghost use Rattle.report.specs.Listed.{Filled, listed};
ghost use Rattle.report.specs.Report.{report_of};
ghost use Rattle.report.specs.Reporting.{ReportOutcome, delivered};

use crate::findings::Findings;
use crate::page::Page;
use crate::sections::append_report;
use table::refusal::Refusal;
use table::view::TableView;

// Lays the text over the front of the output.
#[tactic(auto, unfolding(crate::specs::Reporting::delivered))]
fn deliver(text: &[u8], out: &mut [u8]) -> Result<u64, Refusal>
    ensures { ◌≡◌ {A = ReportOutcome} (record { answer = result; out = out.new }) (delivered text.now out.old) }
{
    if out.len() < text.len() {
        return Err(Refusal::TooShort(text.len() as u64));
    }
    out[..text.len()].copy_from_slice(text);
    Ok(text.len() as u64)
}

// Writes the report apart first, so that an output with too little room stays as it is.
pub(crate) fn deliver_report<T: TableView>(
    table: &T,
    found: &Findings<'_>,
    out: &mut [u8],
) -> Result<u64, Refusal>
    requires filled { Filled (listing_of (T.table table.now) found.now) }
    requires few { length (report_of (listed (listing_of (T.table table.now) found.now))) ≤ 10240 }
    ensures { ◌≡◌ {A = ReportOutcome} (record { answer = result; out = out.new }) (delivered (report_of (listed (listing_of (T.table table.now) found.now))) out.old) }
{
    let mut page = Page {
        bytes: [0u8; 10240],
        end: 0,
    };
    append_report(&mut page, table, found);
    deliver(&page.bytes[..page.end], out)
}
