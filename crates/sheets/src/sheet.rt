// Reading a plan file to a table by value, for record lists of given lengths.

ghost use Rattle.std.specs.Prelude.{◌≡◌, true};
ghost use Rattle.table.specs.Table.{is_plan, rows as rows_of};
ghost use Rattle.columns.specs.Columns.{table_in};
ghost use Rattle.sheets.specs.Sheet.{file_sheet, sheet_of, unread_sheet};

use columns::columns::Columns;
use planfile::lists::TableListsMut;
use planfile::read as reading;
use planfile::read::Counts;
use planned::rows::count_rows;
use table::refusal::Refusal;

// What reading gives: the answer, the table, and how many chain and row records are to be laid.
// No Result of a Sheet: `sheet_of` says what is laid on a refusal too.
#[derive(Clone, Copy)]
pub struct Sheet {
    pub answer: Result<Counts, Refusal>,
    pub columns: Columns,
    pub chains: usize,
    pub rows: usize,
}

// A refusal, and nothing to be laid.
fn unread(refusal: Refusal) -> Sheet
    ensures { result ≡ unread_sheet refusal }
{
    Sheet {
        answer: Err(refusal),
        columns: Columns::blank(0, 0),
        chains: 0,
        rows: 0,
    }
}

// How many rows a plan has.
// No Result: what was read is a plan, and an arm for a refusal that can't come is no plainer.
fn rows_to_lay(columns: &Columns) -> usize
    ensures { is_plan (table_in columns.now) ≡ true → result ≡ rows_of (table_in columns.now) }
{
    let Ok(rows) = count_rows(columns) else {
        return 0;
    };
    rows as usize
}

// Reads a plan file: its table, or a refusal.
fn read_file(file: &[u8]) -> Sheet
    ensures { result ≡ file_sheet file.now }
{
    let mut columns = Columns::blank(0, 0);
    let mut lists = TableListsMut {
        period: &mut columns.period,
        deadline: &mut columns.deadline,
        steps: &mut columns.steps,
        processor: &mut columns.processor,
        priority: &mut columns.priority,
        time: &mut columns.time,
    };
    match reading::read(file, &mut lists) {
        Err(refusal) => unread(refusal),
        Ok(counts) => {
            columns.processors = counts.processors;
            columns.tasks = counts.tasks;
            Sheet {
                answer: Ok(counts),
                columns,
                chains: counts.tasks as usize,
                rows: rows_to_lay(&columns),
            }
        }
    }
}

// Reads a plan file for record lists of these lengths: 7 for fewer than 128 row records, then for fewer than 32 chain
// records, then the reader's refusals.
#[tactic(auto, unfolding(crate::specs::Sheet::sheet_of))]
pub fn read(file: &[u8], chains: usize, rows: usize) -> Sheet
    ensures { result ≡ sheet_of file.now chains rows }
{
    if rows < 128 {
        return unread(Refusal::TooShort(128));
    }
    if chains < 32 {
        return unread(Refusal::TooShort(32));
    }
    read_file(file)
}
