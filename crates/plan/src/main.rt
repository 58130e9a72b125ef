// Reads a plan file on standard input, and prints its report or the refusal's two lines.
#![tactic(auto)]

ghost use Rattle.std.specs.Prelude.{◌≡◌, length, take};
ghost use Rattle.std.specs.Io.{ReadsAtMost};
ghost use Rattle.text.specs.Text.{Written, appended};
ghost use Rattle.io.specs.Counts.{IsPrefixLen};
ghost use Rattle.plan.specs.Printed.{Printed, refusal_text};

use report::report_file;
use std::io::{self, Read};
use table::refusal::Refusal;
use text::append_line;

fn main(rt: HostRuntime) -> io::Result<()> {
    // One byte more than a file may have, so that a longer file is seen to be one; and room for any report.
    // Fixed buffers with their ends, no Vec: there is no heap.
    let mut file = [0u8; 8193];
    let mut text = [0u8; 10240];
    let size = read_full(&rt, &mut file)?;
    let end = print(&file[..size], &mut text);
    rt.write_all(&text[..end])
}

// Reads standard input until the buffer is full or the input ends, and answers how many bytes stand at the front.
fn read_full(rt: &HostRuntime, buf: &mut [u8]) -> io::Result<usize>
    ensures { ReadsAtMost result buf.new }
{
    let mut input = rt.stdin();
    let mut done = 0;
    // By hand, since `read_to_end` asks for memory, and docs/PROOF.md names none among what is assumed of the programs.
    while done < buf.len() {
        let more = input.read(&mut buf[done..])?;
        if more == 0 {
            break;
        }
        done += more;
    }
    Ok(done)
}

// The text to print of a file, at the front of the output.
fn print(file: &[u8], out: &mut [u8]) -> usize
    requires { length out.old ≡ 10240 }
    ensures { IsPrefixLen result out.new × Printed file.now (take result out.new) }
{
    match report_file(file, out) {
        Ok(bytes) => bytes as usize,
        Err(refusal) => print_refusal(refusal, out),
    }
}

// The two lines of a refusal.
#[tactic(auto, using(text::specs::TextLaws::appended_then), unfolding(crate::specs::Printed::refusal_text))]
fn print_refusal(refusal: Refusal, out: &mut [u8]) -> usize
    ensures { ◌≡◌ {A = Written} (record { list = out.new; end = result }) (appended (refusal_text refusal) out.old 0) }
{
    let behind_number = append_line(out, 0, b"refused", refusal.number());
    append_line(out, behind_number, b"at", refusal.place())
}
