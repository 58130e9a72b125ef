// The report's text as it is written: its bytes so far, and the lines that it is made of.

ghost use Rattle.std.specs.Prelude.{◌≡◌};
ghost use Rattle.text.specs.Text.{line, minus_line};
ghost use Rattle.report.specs.Pages.{added, written};
ghost use Rattle.report.specs.Report.{processor_lines, row_lines, slack_line, task_lines};

use text::{append_line, append_minus_line};

// Room for any report, and where its text ends so far.
// A fixed buffer with its end, no Vec: there is no heap.
#[derive(Drop)]
pub(crate) struct Page {
    pub(crate) bytes: [u8; 10240],
    pub(crate) end: usize,
}

impl Page {
    // Appends `key=value` and an LF.
    #[tactic(auto, unfolding(crate::specs::Pages::added))]
    pub(crate) fn line(&mut self, key: &[u8], value: u64)
        ensures { written self.new ≡ added (line key.now value) (written self.old) }
    {
        self.end = append_line(&mut self.bytes, self.end, key, value);
    }

    // Appends `key=-value` and an LF.
    #[tactic(auto, unfolding(crate::specs::Pages::added))]
    fn minus_line(&mut self, key: &[u8], value: u64)
        ensures { written self.new ≡ added (minus_line key.now value) (written self.old) }
    {
        self.end = append_minus_line(&mut self.bytes, self.end, key, value);
    }

    // Appends a row's number, busy length, instances and bound.
    #[tactic(auto, using(crate::specs::Pages::added_both), unfolding(crate::specs::Report::row_lines))]
    pub(crate) fn row(&mut self, row: u64, busy: u64, instances: u64, bound: u64)
        ensures { written self.new ≡ added (row_lines row busy instances bound) (written self.old) }
    {
        self.line(b"row", row);
        self.line(b"busy", busy);
        self.line(b"instances", instances);
        self.line(b"bound", bound);
    }

    // Appends a task's number, bound, deadline in force and slack.
    #[tactic(auto, using(crate::specs::Pages::added_both), unfolding(crate::specs::Report::task_lines))]
    pub(crate) fn task(&mut self, task: u64, bound: u64, deadline: u64, slack: i64)
        ensures { written self.new ≡ added (task_lines task bound deadline slack) (written self.old) }
    {
        self.line(b"task", task);
        self.line(b"bound", bound);
        self.line(b"deadline", deadline);
        self.slack(slack);
    }

    // Appends the slack with its sign.
    #[tactic(auto, unfolding(crate::specs::Report::slack_line))]
    fn slack(&mut self, slack: i64)
        ensures { written self.new ≡ added (slack_line slack) (written self.old) }
    {
        if slack < 0 {
            self.minus_line(b"slack", slack.unsigned_abs())
        } else {
            self.line(b"slack", slack.unsigned_abs())
        }
    }

    // Appends a processor's number and load.
    #[tactic(auto, using(crate::specs::Pages::added_both), unfolding(crate::specs::Report::processor_lines))]
    pub(crate) fn processor(&mut self, processor: u64, load: u64)
        ensures { written self.new ≡ added (processor_lines processor load) (written self.old) }
    {
        self.line(b"processor", processor);
        self.line(b"load", load);
    }
}
