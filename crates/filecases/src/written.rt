// Writing a table, reading it back, and saying how that went.

use crate::sheet::{Sheet, rows_of, stayed, writes_back};
use crate::show::say;
use planfile::write::write;
use planned::lists::TableLists;

// What each byte of the output holds before a table is written.
const UNTOUCHED: u8 = 7;

// Whether two lists agree in so many entries.
// No derived `==`: only the entries of the plan count, and the lists may be longer.
fn same_front(one: &[u64], other: &[u64], count: usize) -> bool {
    match (one.get(..count), other.get(..count)) {
        (Some(front), Some(same)) => front == same,
        _ => false,
    }
}

// Whether two tables are the same plan.
// No derived `==`: only the entries of the plan count, and the lists may be longer.
fn same_table(one: &TableLists<'_>, other: &TableLists<'_>) -> bool {
    let tasks = one.tasks as usize;
    let rows = rows_of(one);
    one.processors == other.processors
        && one.tasks == other.tasks
        && same_front(one.period, other.period, tasks)
        && same_front(one.deadline, other.deadline, tasks)
        && same_front(one.steps, other.steps, tasks)
        && same_front(one.processor, other.processor, rows)
        && same_front(one.priority, other.priority, rows)
        && same_front(one.time, other.time, rows)
}

// Whether the file is read to this table, and the table read is written to the same bytes.
fn reads_back(file: &[u8], table: &TableLists<'_>) -> bool {
    let mut sheet = Sheet::<32, 128>::untouched();
    match sheet.read(file) {
        Ok(counts) => {
            let back = sheet.table(counts.processors, counts.tasks);
            same_table(&back, table) && writes_back(file, &back)
        }
        Err(_) => false,
    }
}

// Writes a table into this output, which is untouched, and says how that went.
fn show_in(rt: &HostRuntime, name: &str, table: &TableLists<'_>, out: &mut [u8]) {
    say(rt, format_args!("{name}:"));
    match write(table, out) {
        Ok(bytes) => {
            let end = bytes as usize;
            let back = u8::from(out.get(..end).is_some_and(|file| reads_back(file, table)));
            let past = u8::from(stayed(out, end, UNTOUCHED));
            say(
                rt,
                format_args!(" written {bytes} back {back} past {past}\n"),
            );
        }
        Err(refusal) => {
            let number = refusal.number();
            let place = refusal.place();
            let kept = u8::from(stayed(out, 0, UNTOUCHED));
            say(rt, format_args!(" {number} {place} kept {kept}\n"));
        }
    }
}

// Writes a table into an output of so many bytes.
pub(crate) fn show_written(rt: &HostRuntime, name: &str, table: &TableLists<'_>, room: usize) {
    let mut out = [UNTOUCHED; 8192];
    if let Some(front) = out.get_mut(..room) {
        show_in(rt, name, table, front);
    }
}
