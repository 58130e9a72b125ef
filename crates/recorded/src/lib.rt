// Reading a plan file into records in lent lists.

#![tactic(auto)]

ghost use Rattle.std.specs.Prelude.{◌≡◌};
ghost use Rattle.recorded.specs.RecordsRead.{RecordsOutcome, records_read};

use columns::columns::{Chain, Row};
use planfile::read::Counts;
use records::fill::lay;
use table::refusal::Refusal;

// Reads a plan file: its records fill the front of the lists, and a refusal leaves them.
pub fn read(file: &[u8], chains: &mut [Chain], rows: &mut [Row]) -> Result<Counts, Refusal>
    ensures { ◌≡◌ {A = RecordsOutcome} (record { answer = result; chains = chains.new; rows = rows.new }) (records_read file.now chains.old rows.old) }
{
    let sheet = sheets::sheet::read(file, chains.len(), rows.len());
    lay(chains, sheet.chains, &sheet.columns);
    lay(rows, sheet.rows, &sheet.columns);
    sheet.answer
}
