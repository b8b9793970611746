// What follows a name on its line: a number, and for a person the columns and the share of all ticks.
ghost use Rattle.std.specs.Prelude.{◌≡◌};
ghost use Rattle.base_bytes.specs.Put.{Written};
ghost use Rattle.month_report.specs.Report.{figure_text, share_lead, percent_text, share_text, plain_text, minutes_text, total_text};

use base_bytes::Writer;
use text_words::{put_column, put_decimal, put_spaces};

// The letters of the column of names.
const NAME_COLUMN: usize = 32;

fn put_figure(out: &mut Writer, size: usize, n: u32)
    ensures { Written out.old (figure_text size n) out.new }
{
    put_spaces(out, NAME_COLUMN.saturating_sub(size));
    out.bytes(b"  ");
    put_column(out, n as u64);
}

// The spaces before a share in its column.
fn share_lead(tenths: u64) -> usize
    ensures { result ≡ share_lead tenths }
{
    match tenths {
        0..=99 => 4,
        100..=999 => 3,
        _ => 2,
    }
}

fn put_percent(out: &mut Writer, tenths: u64)
    ensures { Written out.old (percent_text tenths) out.new }
{
    put_spaces(out, share_lead(tenths));
    put_decimal(out, tenths / 10);
    out.byte(b'.');
    put_decimal(out, tenths % 10);
    out.byte(b'%');
}

// The share that the minutes have of all ticks, rounded to the nearest tenth of a percent.
fn put_share(out: &mut Writer, minutes: u32, ticks: u32)
    ensures { Written out.old (share_text minutes ticks) out.new }
{
    if ticks == 0 {
        out.bytes(b"       -");
    } else {
        let part = minutes as u64;
        let all = ticks as u64;
        let tenths = (part * 2000 + all) / (all * 2);
        put_percent(out, tenths);
    }
}

fn put_plain(out: &mut Writer, n: u32)
    ensures { Written out.old (plain_text n) out.new }
{
    out.byte(b' ');
    put_decimal(out, n as u64);
    out.byte(b'\n');
}

// What follows a name of `size` letters on the line of an AID, or of the rest.
pub fn put_minutes(out: &mut Writer, explain: bool, ticks: u32, size: usize, minutes: u32)
    ensures { Written out.old (minutes_text explain ticks size minutes) out.new }
{
    if explain {
        put_figure(out, size, minutes);
        put_share(out, minutes, ticks);
        out.byte(b'\n');
    } else {
        put_plain(out, minutes);
    }
}

// The same on the line of a total, which has no share.
pub fn put_total(out: &mut Writer, explain: bool, size: usize, n: u32)
    ensures { Written out.old (total_text explain size n) out.new }
{
    if explain {
        put_figure(out, size, n);
        out.byte(b'\n');
    } else {
        put_plain(out, n);
    }
}
