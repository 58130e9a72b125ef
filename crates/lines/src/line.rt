// One line of a plan file.

ghost use Rattle.std.specs.Prelude.{◌≡◌, ◌≤◌, ◌<◌, ◌+◌, ◌-◌, IsTrue, length};
ghost use Rattle.lines.specs.Line.{digits_from, line_at, stands, value_from};
ghost use Rattle.lines.specs.LineLaws.{line_headed, written};

use table::keys;

// The line of the key due, from the place on: its word, '=', a value and an LF give the value and where the next line starts.
// None is a fault of form. Inlined whole, so that where the key is a constant its word is compared as the literal that it is.
#[inline(always)]
#[tactic(auto, using(crate::specs::LineLaws::line_past, crate::specs::LineLaws::line_due, crate::specs::LineLaws::no_word), unfolding(crate::specs::Words::word, crate::specs::Words::words))]
pub fn line_at(file: &[u8], place: usize, key: usize) -> Option<(u64, usize)>
    ensures { result ≡ line_at file.now place key }
{
    if file.len() <= place {
        return None;
    }
    match key {
        keys::PLAN => headed(file, place, b"plan="),
        keys::PROCESSORS => headed(file, place, b"processors="),
        keys::TASKS => headed(file, place, b"tasks="),
        keys::TASK => headed(file, place, b"task="),
        keys::PERIOD => headed(file, place, b"period="),
        keys::DEADLINE => headed(file, place, b"deadline="),
        keys::STEPS => headed(file, place, b"steps="),
        keys::PROCESSOR => headed(file, place, b"processor="),
        keys::PRIORITY => headed(file, place, b"priority="),
        keys::TIME => headed(file, place, b"time="),
        _ => headed(file, place, b"="),
    }
}

// The line that begins with these bytes, from the place on: then a value and an LF.
// A place and no slice from it on, here and below: `line_at` answers a place in the whole file.
#[inline(always)]
#[tactic(auto, unfolding(crate::specs::LineLaws::line_headed))]
fn headed(file: &[u8], place: usize, head: &[u8]) -> Option<(u64, usize)>
    requires { (place ≤ length file.now) × IsTrue (written head.now) }
    ensures { result ≡ line_headed file.now place head.now }
{
    if !stands_at(file, place, head) {
        return None;
    }
    value_at(file, place + head.len())
}

// Whether the bytes stand in the file from the place on.
#[inline(always)]
#[tactic(auto, using(crate::proofs::Starts::stands_starts))]
fn stands_at(file: &[u8], place: usize, bytes: &[u8]) -> bool
    requires { (place ≤ length file.now) × IsTrue (written bytes.now) }
    ensures stands { result ≡ stands file.now place bytes.now }
    ensures within { IsTrue result → place + length bytes.now ≤ length file.now }
{
    file[place..].starts_with(bytes)
}

// A value of 1 to 9 digits, with no leading zero, and an LF.
#[tactic(auto, using(crate::specs::LineLaws::value_past, crate::specs::LineLaws::value_zero, crate::specs::LineLaws::value_first, crate::specs::LineLaws::value_other, crate::specs::LineLaws::digit_low, crate::specs::LineLaws::digit_high))]
fn value_at(file: &[u8], place: usize) -> Option<(u64, usize)>
    ensures { result ≡ value_from file.now place }
{
    let first = *file.get(place)?;
    match first {
        b'0' => digits_at(0, file, place + 1, 0),
        b'1'..=b'9' => digits_at(8, file, place + 1, digit(first)),
        _ => None,
    }
}

// The number that a digit stands for.
// By a subtraction: `to_digit` would answer an Option, for what the caller's match has told.
fn digit(byte: u8) -> u64
    requires { (48 ≤ byte) × (byte ≤ 57) }
    ensures { (result ≡ byte - 48) × (result ≤ 9) }
{
    (byte - b'0') as u64
}

// At most so many digits more and an LF, behind digits that were worth `begun`.
#[tactic(auto, using(crate::specs::LineLaws::digits_lf, crate::specs::LineLaws::digits_spent, crate::specs::LineLaws::digits_other, crate::specs::LineLaws::digits_end, crate::specs::LineLaws::digit_low, crate::specs::LineLaws::digit_high))]
fn digits_at(most: usize, file: &[u8], place: usize, begun: u64) -> Option<(u64, usize)>
    requires { (most ≤ 8) × (begun < 10) × (place ≤ length file.now) }
    ensures { result ≡ digits_from most file.now place begun }
{
    let mut value = begun;
    for at in place..file.len() {
        let byte = file[at];
        match byte {
            b'\n' => {
                return Some((value, at + 1));
            }
            b'0'..=b'9' if at - place < most => {
                value = value * 10 + digit(byte);
            }
            _ => {
                return None;
            }
        }
    }
    None
}
