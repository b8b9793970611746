// A month counted: the events of a file run through the manager, a tick for the profile that was enabled before it (docs/EVENTS.md).
// Soundness is made by fresh and kept by every call, so it is not asked at any event (decision B49).
#![tactic(auto)]

ghost use Rattle.std.specs.Prelude.{◌≡◌, [], cond, ltb};
ghost use Rattle.base_status.specs.StatusWords.{is_done};
ghost use Rattle.card_record.specs.Notifications.{code_of};
ghost use Rattle.rule_run.specs.Runs.{is_tick};
ghost use Rattle.record_door.specs.Door.{call_of};
ghost use Rattle.month_events.specs.Events.{events_of, calls_of};
ghost use Rattle.month_tally.specs.Lines.{minute_on};
ghost use Rattle.month_count.specs.Month.{at_first, counting, file_month, file_counted};
ghost use Rattle.month_count.specs.Loop.{Countable, MinutesLine};

use base_bytes::part_of;
use base_status::Status;
use card_record::{Card, Kind};
use month_events::next_event;
use month_file::{Refusal, open};
use month_tally::{MINUTES, Names, Tally};
use record_door::{Call, LEAST_BUFFER, answer_on_sound};

fn is_tick(call: Call) -> bool
    ensures { result ≡ is_tick (call_of [] 0 call) }
{
    matches!(call, Call::Tick)
}

// The minute of a tick, on the line of the profile that is enabled before it; how many ticks the call is.
fn time(call: Call, line: usize, minutes: &mut [u32; MINUTES]) -> u32
    requires { MinutesLine line minutes.old }
    ensures { (result ≡ cond (is_tick (call_of [] 0 call)) 1 0) × (minutes.new ≡ cond (is_tick (call_of [] 0 call)) (minute_on line minutes.old) minutes.old) }
{
    if !is_tick(call) {
        return 0;
    }
    minutes[line] += 1;
    1
}

// How many refusals an answer is.
fn refusals(status: Status) -> u32
    ensures { result ≡ cond (is_done status) 0 1 }
{
    u32::from(!status.is_done())
}

// Is there a notification, which names a profile?
fn is_told(kind: Kind) -> bool
    ensures { result ≡ ltb 0 (code_of kind) }
{
    !matches!(kind, Kind::Silent)
}

// The events of a body on a card, counted. The enabled profile changes only where an answer has a notification, which names it. Every
// event goes through the one door, a tick in Quiet too (decisions B50, B53).
fn count(card: Card, body: &[u8], minutes: &mut [u32; MINUTES]) -> Tally
    requires { Countable card body.now minutes.old }
    ensures { (result ≡ (counting card (calls_of (events_of body.now)) (at_first card)).tally) × (minutes.new ≡ (counting card (calls_of (events_of body.now)) (at_first card)).minutes) }
{
    let mut buf = [0u8; LEAST_BUFFER];
    let profile = card.profile(card.enabled_place());
    let mut names = Names::none().noted(profile.aid);
    let mut own = names.line(profile.aid);
    let mut card = card;
    let mut ticks: u32 = 0;
    let mut events: u32 = 0;
    let mut refused: u32 = 0;
    let mut at: usize = 0;
    // No `for`: the place goes on by each event's own length.
    while let Some(event) = next_event(body, at) {
        ticks += time(event.call, own, minutes);
        let answer = answer_on_sound(card, event.call, body, &mut buf);
        events += 1;
        refused += refusals(answer.status);
        if is_told(answer.notification.kind) {
            names = names.noted(answer.notification.aid);
            own = names.line(answer.notification.aid);
        }
        card = answer.card;
        at = event.stop;
    }
    Tally {
        names,
        ticks,
        events,
        refused,
    }
}

// A file counted: the minutes of each line and of the rest are left in the memory lent, whatever was there. Of a refused file nothing is
// counted, and no event is run.
pub fn count_month(s: &[u8], minutes: &mut [u32; MINUTES]) -> Result<Tally, Refusal>
    ensures { (result ≡ file_month s.now) × (minutes.new ≡ (file_counted s.now).minutes) }
{
    *minutes = [0u32; MINUTES];
    let opened = open(s)?;
    Ok(count(opened.card, part_of(s, opened.events), minutes))
}
