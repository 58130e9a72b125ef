// Reading a file, writing it back, and saying how that went.

use crate::sheet::{Sheet, rows_of, writes_back};
use std::fmt::Display;

// Prints a text; a write that fails is passed over, as it changes no other answer.
// In each of the two programs that print so: a crate for this one line is no plainer.
pub(crate) fn say<D: Display + Drop>(rt: &HostRuntime, text: D) {
    let _ = rt.print(text);
}

// Reads a file into lists with room for any table.
pub(crate) fn show(rt: &HostRuntime, name: &str, file: &str) {
    show_in(rt, name, file, &mut Sheet::<32, 128>::untouched());
}

// Reads a file into these lists, which are untouched, and says how that went.
pub(crate) fn show_in<const T: usize, const R: usize>(
    rt: &HostRuntime,
    name: &str,
    file: &str,
    sheet: &mut Sheet<T, R>,
) {
    say(rt, format_args!("{name}:"));
    match sheet.read(file.as_bytes()) {
        Ok(counts) => {
            let processors = counts.processors;
            let tasks = counts.tasks;
            let table = sheet.table(processors, tasks);
            let rows = rows_of(&table);
            let same = u8::from(writes_back(file.as_bytes(), &table));
            let past = u8::from(sheet.stayed(tasks as usize, rows));
            say(
                rt,
                format_args!(" read {processors} {tasks} {rows} same {same} past {past}\n"),
            );
        }
        Err(refusal) => {
            let number = refusal.number();
            let place = refusal.place();
            let kept = u8::from(sheet.stayed(0, 0));
            say(rt, format_args!(" {number} {place} kept {kept}\n"));
        }
    }
}
