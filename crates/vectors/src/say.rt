// Words of the lines that are printed.

use crate::paper::ROWS;
use guards::state::State;
use std::fmt::Display;

// Prints a text; what can't be written is let go.
// In each of the two programs that print so: a crate for this one line is no plainer.
pub(crate) fn say<D: Display + Drop>(rt: &HostRuntime, text: D) {
    let _ = rt.print(text);
}

// Prints a done list.
pub(crate) fn say_done(rt: &HostRuntime, done: &[u8]) {
    say(rt, "tick with done");
    for byte in done {
        say(rt, format_args!(" {byte}"));
    }
}

// Prints which rows have completed an instance from one state to another.
pub(crate) fn say_completed(rt: &HostRuntime, before: &State, after: &State) {
    for row in 0..ROWS {
        if before.completed[row] < after.completed[row] {
            let number = row + 1;
            say(rt, format_args!(", row {number} completed"));
        }
    }
}

// Prints which rows a release list names.
pub(crate) fn say_released(rt: &HostRuntime, released: &[u8]) {
    for (row, byte) in released.iter().enumerate() {
        if *byte == 1 {
            let number = row + 1;
            say(rt, format_args!(", row {number} released"));
        }
    }
}

// Prints whether a refusal left all as it was, and ends the line.
pub(crate) fn say_whether_stayed(rt: &HostRuntime, stayed: bool) {
    say(
        rt,
        if stayed {
            ", all stayed\n"
        } else {
            ", something changed\n"
        },
    );
}
