// The account of an event file: its report, or by which name it is refused (docs/EVENTS.md).
// Every byte string is answered, in every buffer: what does not fit is dropped.
#![tactic(auto)]

mod refusals;

ghost use Rattle.std.specs.Prelude.{◌≤◌, length};
ghost use Rattle.base_bytes.specs.Put.{Written, Wrote};
ghost use Rattle.month_account.specs.Account.{account_text, most_account};

use base_bytes::Writer;
use month_count::count_month;
use month_report::write_report;
use month_tally::MINUTES;
use refusals::write_refusal;

// The text of a file, plain or for a person.
fn put_account(out: &mut Writer, s: &[u8], explain: bool)
    ensures { Written out.old (account_text explain s.now) out.new × (length (account_text explain s.now) ≤ most_account) }
{
    let mut minutes = [0u32; MINUTES];
    match count_month(s, &mut minutes) {
        Ok(tally) => write_report(out, explain, &tally, &minutes),
        Err(refusal) => write_refusal(out, explain, refusal),
    }
}

// The same from a place of a buffer on; up to where it is then filled. Buffer and place, no writer: README names its promise (`Wrote`).
pub fn write_month(s: &[u8], explain: bool, out: &mut [u8], at: usize) -> usize
    ensures { Wrote out.old at (account_text explain s.now) result out.new × (length (account_text explain s.now) ≤ most_account) }
{
    let mut writer = Writer::new(out, at);
    put_account(&mut writer, s, explain);
    writer.at
}
