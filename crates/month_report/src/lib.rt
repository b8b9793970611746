// The text of a report, plain or for a person (docs/EVENTS.md).
// Every function answers for every record and every buffer: what does not fit is dropped, as a `Writer` does.
#![tactic(auto)]

mod cells;

ghost use Rattle.std.specs.Prelude.{◌*◌, ◌≤◌, length};
ghost use Rattle.base_bytes.specs.Put.{Written};
ghost use Rattle.month_tally.specs.Lines.{most_lines, aids_in};
ghost use Rattle.month_report.specs.Report.{aid_line, lines_text, rest_text, report_head, refused_text, totals_text, report_text, most_report_line, most_report};

use base_bytes::Writer;
use card_isdp::Aid;
use cells::{put_minutes, put_total};
use month_tally::{LINES, MINUTES, Names, Tally};
use text_aid::put_aid;

// `explain` and `ticks` go apart: a total has no ticks, a share no `explain`.
fn put_line(out: &mut Writer, explain: bool, ticks: u32, aid: Aid, minutes: u32)
    ensures { Written out.old (aid_line explain ticks aid minutes) out.new × (length (aid_line explain ticks aid minutes) ≤ most_report_line) }
{
    put_aid(out, aid);
    put_minutes(out, explain, ticks, aid.size() * 2, minutes);
}

// The lines of the AIDs.
fn put_lines(out: &mut Writer, explain: bool, ticks: u32, names: &Names, minutes: &[u32; MINUTES])
    ensures { Written out.old (lines_text explain ticks minutes.now 0 (aids_in names.now)) out.new × (length (lines_text explain ticks minutes.now 0 (aids_in names.now)) ≤ most_lines * most_report_line) }
{
    // By number: an AID and its minutes stand at the same one.
    for i in 0..names.lines() {
        put_line(out, explain, ticks, names.aids[i], minutes[i]);
    }
}

// The line of the rest, where there is one.
fn put_rest(out: &mut Writer, explain: bool, ticks: u32, more: bool, minutes: u32)
    ensures { Written out.old (rest_text explain ticks more minutes) out.new }
{
    if more {
        out.bytes(b"rest");
        put_minutes(out, explain, ticks, 4, minutes);
    }
}

fn put_head(out: &mut Writer, explain: bool)
    ensures { Written out.old (report_head explain) out.new }
{
    if explain {
        out.bytes(b"AID                               minutes   share\n");
    }
}

// How many events were refused, for a person.
fn put_refused(out: &mut Writer, explain: bool, n: u32)
    ensures { Written out.old (refused_text explain n) out.new }
{
    if explain {
        out.bytes(b"refused");
        put_total(out, explain, 7, n);
    }
}

fn put_totals(out: &mut Writer, explain: bool, tally: &Tally)
    ensures { Written out.old (totals_text explain tally.now) out.new }
{
    out.bytes(b"ticks");
    put_total(out, explain, 5, tally.ticks);
    out.bytes(b"events");
    put_total(out, explain, 6, tally.events);
    put_refused(out, explain, tally.refused);
}

pub fn write_report(out: &mut Writer, explain: bool, tally: &Tally, minutes: &[u32; MINUTES])
    ensures { Written out.old (report_text explain tally.now minutes.now) out.new × (length (report_text explain tally.now minutes.now) ≤ most_report) }
{
    put_head(out, explain);
    put_lines(out, explain, tally.ticks, &tally.names, minutes);
    put_rest(out, explain, tally.ticks, tally.names.more, minutes[LINES]);
    put_totals(out, explain, tally);
}
