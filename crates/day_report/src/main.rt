// The day report as a program: a work file from standard input, and its report to standard output. A program's reading and writing are no
// part of a promise; what stands between them is `report::day_report`.
#![tactic(auto)]

mod input;

ghost use Rattle.std.specs.Prelude.{◌≤◌, length, take, ◌≡◌};
ghost use Rattle.std.specs.Counts.{IsPrefixLen};
ghost use Rattle.report.specs.DayReport.{day_report, most_bytes};
ghost use Rattle.day_report.specs.Working.Printed.{Printed};

// The longest work file, and one byte to know a longer one.
const ROOM: usize = sizes::MOST_FILE + 1;

fn main(rt: HostRuntime) {
    let mut file = [0; ROOM];
    let mut text = [0; report::MOST_BYTES];
    print_report(&rt, &mut file, &mut text);
}

// Reads into the room, and writes the report of what was read.
fn print_report(rt: &(impl Input + Print + Eprint), room: &mut [u8], text: &mut [u8])
    requires { most_bytes ≤ length text.old }
    ensures { Printed room.new text.old text.new }
{
    let mut input = rt.reader();
    let length = input::read_full(&mut input, room);
    if length < room.len() && !input::is_ended(&mut input) {
        complain(
            rt,
            "day_report: standard input could not be read to its end",
        );
        return;
    }
    let end = whole_report(&room[..length], text);
    if rt.write_all(&text[..end]).is_err() {
        complain(rt, "day_report: the report could not be written");
    }
}

// The report of a file in the text: what stands before the answered place is the report, whole.
fn whole_report(file: &[u8], text: &mut [u8]) -> usize
    requires { most_bytes ≤ length text.old }
    ensures prefix_len { IsPrefixLen result text.new }
    ensures text_after { take result text.new ≡ day_report file.now }
{
    report::day_report(file, text)
}

// A line on standard error. Where that cannot be written either, nothing is left to say.
fn complain(rt: &impl Eprint, line: &str) {
    let _ = rt.eprintln(line);
}
