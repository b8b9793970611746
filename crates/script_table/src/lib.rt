// The profiles of a card as a table: a head, and a row for each place held.
// Every function answers for every record and every buffer: what does not fit is dropped, as a `Writer` does.
#![tactic(auto)]

mod cells;

ghost use Rattle.std.specs.Prelude.{◌≡◌, ◌≤◌, length};
ghost use Rattle.base_bytes.specs.Put.{Written};
ghost use Rattle.card_isdp.specs.Sizes.{most_places};
ghost use Rattle.script_table.specs.Profiles.{name_cells, figure_cells, role_cells, place_text, rows_text, widest_of, table_head, table_text, most_table};

use base_bytes::Writer;
use card_isdp::Isdp;
use card_places::PLACES;
use card_record::Card;
use cells::{aid_size, put_policy, put_provisioning, put_state, put_yes};
use text_aid::put_aid;
use text_words::{put_column, put_spaces};

// The AID stands in a column as wide as the widest.
fn put_name_cells(out: &mut Writer, p: &Isdp, place: usize, widest: u8)
    ensures { Written out.old (name_cells p.now place widest) out.new }
{
    put_column(out, place as u64);
    out.bytes(b"  ");
    put_aid(out, p.aid);
    put_spaces(out, widest.saturating_sub(aid_size(p)) as usize * 2);
}

fn put_figure_cells(out: &mut Writer, p: &Isdp)
    ensures { Written out.old (figure_cells p.now) out.new }
{
    out.bytes(b"  ");
    put_state(out, p.life);
    out.bytes(b"  ");
    put_column(out, p.quota as u64);
    out.bytes(b"  ");
    put_column(out, p.used as u64);
}

fn put_role_cells(out: &mut Writer, p: &Isdp, place: usize, holder: usize)
    ensures { Written out.old (role_cells p.now place holder) out.new }
{
    out.bytes(b"  ");
    put_yes(out, place == holder, 6);
    out.bytes(b"  ");
    put_provisioning(out, p.mark);
    out.bytes(b"  ");
    put_policy(out, p.policy);
    out.byte(b'\n');
}

// A place that is not held has no row.
fn put_place(out: &mut Writer, p: &Isdp, place: usize, holder: usize, widest: u8)
    ensures { Written out.old (place_text p.now place holder widest) out.new }
{
    if p.aid.len != 0 {
        put_name_cells(out, p, place, widest);
        put_figure_cells(out, p);
        put_role_cells(out, p, place, holder);
    }
}

// The bytes of the longest AID.
fn widest(places: &[Isdp; PLACES]) -> u8
    ensures value { (result ≡ widest_of places.now) × (result ≤ 16) }
    ensures all { length places.now ≡ most_places }
{
    let mut most = 0;
    for p in places {
        most = most.max(aid_size(p));
    }
    most
}

fn put_head(out: &mut Writer, widest: u8)
    ensures { Written out.old (table_head widest) out.new }
{
    if widest == 0 {
        out.bytes(b"  no profile is held\n");
    } else {
        out.bytes(b"  place  AID");
        put_spaces(out, (widest as usize * 2).saturating_sub(3));
        out.bytes(b"  state           quota     used  fall-back  provisioning  policy\n");
    }
}

fn put_rows(out: &mut Writer, places: &[Isdp; PLACES], holder: usize, widest: u8)
    ensures { Written out.old (rows_text holder widest 0 places.now) out.new }
{
    for (place, p) in places.iter().enumerate() {
        put_place(out, p, place, holder, widest);
    }
}

pub fn put_table(out: &mut Writer, card: &Card)
    ensures { Written out.old (table_text card.now) out.new × (length (table_text card.now) ≤ most_table) }
{
    let widest = widest(&card.places);
    put_head(out, widest);
    put_rows(out, &card.places, card.fallback as usize, widest);
}
