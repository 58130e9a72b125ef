// Reading a plan file into lent lists.

ghost use Rattle.std.specs.Prelude.{◌≡◌, ◌≤◌, ◌<◌, MatchResult, OnOk};
ghost use Rattle.planfile.specs.DueLaws.{Few};
ghost use Rattle.lines.specs.Line.{line_at};
ghost use Rattle.planfile.specs.Lent.{lists_in, places};
ghost use Rattle.planfile.specs.Reading.{ReadOutcome, held, read, read_of};
ghost use Rattle.planfile.specs.Reader.{asks_too_many, judgement};
ghost use Rattle.planfile.specs.ReaderLaws.{FoundIn, Reached};
ghost use Rattle.planfile.specs.ReadWriteLaws.{Roomy};
ghost use Rattle.planfile.specs.StoreLaws.{Sized};

use crate::due::{Due, advance, first, own_number};
use crate::lists::TableListsMut;
use lines::line::line_at;
use table::keys;
use table::limits::{MOST_ROWS, MOST_TASKS};
use table::ranges::in_range;
use table::refusal::Refusal;

// The counts of a table.
#[derive(Clone, Copy)]
pub struct Counts {
    pub processors: u64,
    pub tasks: u64,
}

// Where reading stands: what is due, where its line starts, and the line's number.
#[derive(Clone, Copy)]
struct Stand {
    due: Due,
    place: usize,
    number: u64,
}

// At most so many bytes.
const MOST_BYTES: usize = 8192;

// Whether this value of the key due brings the rows above 128.
#[inline(always)]
#[tactic(auto, unfolding(crate::specs::Reader::asks_too_many))]
fn asks_too_many(key: usize, due: &Due, value: u64) -> bool
    requires { Few due.now × (value ≤ 1000000000) × (key ≡ due.now.key) }
    ensures { result ≡ asks_too_many due.now value }
{
    if key != keys::STEPS {
        return false;
    }
    MOST_ROWS < due.asked + value
}

// The line due, judged: its form, then its range, then the rows that it asks for.
#[inline(always)]
#[tactic(auto, using(crate::specs::JudgeLaws::judge_fault, crate::specs::JudgeLaws::judge_range, crate::specs::JudgeLaws::judge_rows, crate::specs::JudgeLaws::judge_right, crate::specs::DueLaws::value_few))]
fn judge(key: usize, file: &[u8], stand: &Stand) -> Result<(u64, usize), Refusal>
    requires { Few stand.now.due × (key ≡ stand.now.due.key) }
    ensures { result ≡ judgement stand.now.number stand.now.due (line_at file.now stand.now.place stand.now.due.key) }
{
    let number = stand.number;
    let Some((value, behind)) = line_at(file, stand.place, key) else {
        return Err(Refusal::NotTheLineDue(number));
    };
    if !in_range(key, own_number(key, &stand.due), value) {
        return Err(Refusal::OutOfRange(number));
    }
    if asks_too_many(key, &stand.due, value) {
        return Err(Refusal::TooManyRows(number));
    }
    Ok((value, behind))
}

// Reads the line due, which is this key's, into the lists.
fn read_line<const KEY: usize>(
    file: &[u8],
    stand: &mut Stand,
    lists: &mut TableListsMut<'_>,
) -> Result<(), Refusal>
    requires key { (KEY ≡ stand.old.due.key) × (KEY < 10) }
    requires reached { Reached file.now stand.old.due stand.old.place stand.old.number (lists_in lists.old) }
    ensures same_place { places lists.new ≡ places lists.old }
    ensures next { MatchResult result
        (λ done. (stand.old.place < stand.new.place) × Reached file.now stand.new.due stand.new.place stand.new.number (lists_in lists.new))
        (λ refusal. FoundIn file.now (Err refusal) (lists_in lists.new)) }
{
    let (value, behind) = judge(KEY, file, stand)?;
    lists.store(KEY, &stand.due, value);
    *stand = Stand {
        due: advance(KEY, &stand.due, value),
        place: behind,
        number: stand.number + 1,
    };
    Ok(())
}

// Reads the line due into the lists. Each key has its own arm, in which the tests of the key are done as the code is compiled.
fn read_due(file: &[u8], stand: &mut Stand, lists: &mut TableListsMut<'_>) -> Result<(), Refusal>
    requires due { stand.old.due.key < 10 }
    requires reached { Reached file.now stand.old.due stand.old.place stand.old.number (lists_in lists.old) }
    ensures same_place { places lists.new ≡ places lists.old }
    ensures next { MatchResult result
        (λ done. (stand.old.place < stand.new.place) × Reached file.now stand.new.due stand.new.place stand.new.number (lists_in lists.new))
        (λ refusal. FoundIn file.now (Err refusal) (lists_in lists.new)) }
{
    match stand.due.key {
        keys::PLAN => read_line::<{ keys::PLAN }>(file, stand, lists),
        keys::PROCESSORS => read_line::<{ keys::PROCESSORS }>(file, stand, lists),
        keys::TASKS => read_line::<{ keys::TASKS }>(file, stand, lists),
        keys::TASK => read_line::<{ keys::TASK }>(file, stand, lists),
        keys::PERIOD => read_line::<{ keys::PERIOD }>(file, stand, lists),
        keys::DEADLINE => read_line::<{ keys::DEADLINE }>(file, stand, lists),
        keys::STEPS => read_line::<{ keys::STEPS }>(file, stand, lists),
        keys::PROCESSOR => read_line::<{ keys::PROCESSOR }>(file, stand, lists),
        keys::PRIORITY => read_line::<{ keys::PRIORITY }>(file, stand, lists),
        _ => read_line::<{ keys::TIME }>(file, stand, lists),
    }
}

// Reads line by line into the lists, and answers what the lines hold: a table with these counts and so many rows.
fn read_lines(file: &[u8], lists: &mut TableListsMut<'_>) -> Result<(Counts, u64), Refusal>
    requires { Sized (lists_in lists.old) }
    ensures same_place { places lists.new ≡ places lists.old }
    ensures found { FoundIn file.now result (lists_in lists.new) }
    ensures sized { OnOk result (Sized (lists_in lists.new)) }
{
    let mut stand = Stand {
        due: first(),
        place: 0,
        number: 1,
    };
    // The key due says whether there is a line more, and no count of lines is known before the last is read.
    while stand.due.key < keys::KEYS {
        read_due(file, &mut stand, lists)?;
    }
    if stand.place != file.len() {
        return Err(Refusal::NotTheLineDue(stand.number));
    }
    let counts = Counts {
        processors: stand.due.processors,
        tasks: stand.due.tasks,
    };
    Ok((counts, stand.due.row))
}

// Reads the file's table into lists that have room for any.
#[tactic(auto, using(crate::specs::ReaderLaws::read_refused))]
fn read_table(file: &[u8], lists: &mut TableListsMut<'_>) -> Result<Counts, Refusal>
    requires { Roomy (lists_in lists.old) }
    ensures same_place { places lists.new ≡ places lists.old }
    ensures outcome { ◌≡◌ {A = ReadOutcome} (record { answer = result; lists = lists_in lists.new }) (read_of (held file.now) (lists_in lists.old)) }
{
    let mut own = TableListsMut {
        period: &mut [0u64; 32],
        deadline: &mut [0u64; 32],
        steps: &mut [0u64; 32],
        processor: &mut [0u64; 128],
        priority: &mut [0u64; 128],
        time: &mut [0u64; 128],
    };
    let (counts, rows) = read_lines(file, &mut own)?;
    lists.lay(&own, counts.tasks as usize, rows as usize);
    Ok(counts)
}

// Reads a file: its table's entries fill the front of the lists, and a refusal leaves them.
#[tactic(auto, unfolding(crate::specs::Reading::read))]
pub fn read(file: &[u8], lists: &mut TableListsMut<'_>) -> Result<Counts, Refusal>
    ensures same_place { places lists.new ≡ places lists.old }
    ensures outcome { ◌≡◌ {A = ReadOutcome} (record { answer = result; lists = lists_in lists.new }) (read file.now (lists_in lists.old)) }
{
    if !lists.rows_held(MOST_ROWS as usize) {
        return Err(Refusal::TooShort(MOST_ROWS));
    }
    if !lists.tasks_held(MOST_TASKS as usize) {
        return Err(Refusal::TooShort(MOST_TASKS));
    }
    if MOST_BYTES < file.len() {
        return Err(Refusal::FileTooLong);
    }
    read_table(file, lists)
}
