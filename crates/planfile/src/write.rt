// Writing a table as a plan file.

ghost use Rattle.std.specs.Prelude.{◌≡◌, true, length};
ghost use Rattle.table.specs.Table.{is_plan};
ghost use Rattle.text.specs.Text.{Written, appended};
ghost use Rattle.text.specs.TextLaws.{Holds};
ghost use Rattle.lines.specs.Words.{line_of};
ghost use Rattle.planfile.specs.DueLaws.{Few};
ghost use Rattle.planfile.specs.File.{file_of};
ghost use Rattle.planfile.specs.StoreLaws.{Slots};
ghost use Rattle.planfile.specs.Writer.{lists_held, value_due};
ghost use Rattle.planfile.specs.Writing.{WriteOutcome, write};

use crate::due::{Due, advance, first};
use lines::words::append_word;
use planned::check::is_plan;
use table::keys;
use table::refusal::Refusal;
use table::view::TableView;
use text::{append, append_line};

// The value that the table has for the key due, at the task or the row that is given.
#[tactic(auto, using(crate::specs::WriterLaws::value_none), unfolding(crate::specs::Writer::value_due, crate::specs::Writer::values_due))]
fn value_due<T: TableView>(table: &T, due: &Due) -> u64
    requires { Few due.now × Slots due.now (lists_held (T.table table.now)) }
    ensures { result ≡ value_due (T.table table.now) due.now }
{
    let task = due.task as usize;
    let row = due.row as usize;
    match due.key {
        keys::PLAN => 1,
        keys::PROCESSORS => table.processors(),
        keys::TASKS => table.tasks(),
        keys::TASK => due.task + 1,
        keys::PERIOD => table.period(task),
        keys::DEADLINE => table.deadline(task),
        keys::STEPS => table.steps(task),
        keys::PROCESSOR => table.processor(row),
        keys::PRIORITY => table.priority(row),
        keys::TIME => table.time(row),
        // No key, and no Option: `value_due` (specs/Writer.antt) gives 0.
        _ => 0,
    }
}

// Appends the line of the key with this value: its word, and behind it a line of no word.
// Output and place are no struct: `appended .. out.old at` in the contract takes both.
#[tactic(auto, using(text::specs::TextLaws::line_behind), unfolding(lines::specs::Words::line_of))]
fn write_line(out: &mut [u8], at: usize, key: usize, value: u64) -> usize
    ensures { ◌≡◌ {A = Written} (record { list = out.new; end = result }) (appended (line_of key value) out.old at) }
{
    let behind = append_word(out, at, key);
    append_line(out, behind, b"", value)
}

// Writes the lines of a plan at the front of the text, and answers their number of bytes.
fn write_lines<T: TableView>(table: &T, text: &mut [u8]) -> usize
    requires { (is_plan (T.table table.now) ≡ true) × (length text.old ≡ 8192) }
    ensures { Holds (file_of (T.table table.now)) 8192 (record { list = text.new; end = result }) }
{
    let mut due = first();
    let mut end: usize = 0;
    // The key due says whether there is a line more: the lines of a plan are in no list that could be gone through.
    while due.key < keys::KEYS {
        let value = value_due(table, &due);
        end = write_line(text, end, due.key, value);
        due = advance(due.key, &due, value);
    }
    end
}

// Writes a plan, if the output has room for its file.
#[tactic(auto, using(crate::specs::WriterLaws::text_short))]
fn write_plan<T: TableView>(table: &T, out: &mut [u8]) -> Result<u64, Refusal>
    requires { is_plan (T.table table.now) ≡ true }
    ensures { ◌≡◌ {A = WriteOutcome} (record { answer = result; out = out.new }) (write (T.table table.now) out.old) }
{
    // A fixed buffer and its end, no Vec: there is no heap.
    let mut text = [0u8; 8192];
    let bytes = write_lines(table, &mut text);
    if out.len() < bytes {
        return Err(Refusal::TooShort(bytes as u64));
    }
    append(out, 0, &text[..bytes]);
    Ok(bytes as u64)
}

// Writes a table: a plan's file stands at the front of the output, and a refusal leaves it.
#[tactic(auto, using(crate::specs::WriterLaws::write_no_plan))]
pub fn write<T: TableView>(table: &T, out: &mut [u8]) -> Result<u64, Refusal>
    ensures { ◌≡◌ {A = WriteOutcome} (record { answer = result; out = out.new }) (write (T.table table.now) out.old) }
{
    if !is_plan(table) {
        return Err(Refusal::NotAPlan);
    }
    write_plan(table, out)
}
