// What is written of a refused file: the refusal by name, and for a person what it means.
ghost use Rattle.std.specs.Prelude.{◌≡◌, ◌≤◌, length};
ghost use Rattle.base_bytes.specs.Put.{Written};
ghost use Rattle.month_account.specs.Refusals.{name_text, meaning_text, line_text, refusal_text, most_refusal};

use base_bytes::Writer;
use month_file::Refusal;

fn name(refusal: Refusal) -> &'static [u8]
    ensures { result.now ≡ name_text refusal }
{
    match refusal {
        Refusal::ContentsWrong => b"contents wrong",
        Refusal::SectionMissing => b"section missing",
        Refusal::FreshBad => b"fresh inputs bad",
        Refusal::CutShort => b"event cut short",
        Refusal::UnknownKind => b"event of unknown kind",
        Refusal::WrongLength => b"event of wrong length",
    }
}

// What a refusal means. Two functions and no table of pairs: each promises its own definition.
fn meaning(refusal: Refusal) -> &'static [u8]
    ensures { result.now ≡ meaning_text refusal }
{
    match refusal {
        Refusal::ContentsWrong =>
            b"the file is too long, or its sections are not known ones that lie end to end\n",
        Refusal::SectionMissing => b"the fresh card's inputs or the events are not listed\n",
        Refusal::FreshBad =>
            b"the fresh card's inputs are under 32 bytes, or no card is made of them\n",
        Refusal::CutShort => b"the events end within an event\n",
        Refusal::UnknownKind => b"an event is of no kind that there is\n",
        Refusal::WrongLength => b"an event has too few or too many bytes for its kind\n",
    }
}

fn put_line(out: &mut Writer, refusal: Refusal)
    ensures { Written out.old (line_text refusal) out.new }
{
    out.bytes(b"refused: ");
    out.bytes(name(refusal));
    out.byte(b'\n');
}

// The refusal's line, and for a person two more.
pub fn write_refusal(out: &mut Writer, explain: bool, refusal: Refusal)
    ensures { Written out.old (refusal_text explain refusal) out.new × (length (refusal_text explain refusal) ≤ most_refusal) }
{
    put_line(out, refusal);
    if explain {
        out.bytes(meaning(refusal));
        out.bytes(b"no event was run\n");
    }
}
