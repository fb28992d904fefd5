// A base rank in a row.

ghost use Rattle.std.specs.Prelude.{◌≡◌, ◌≤◌, length};
ghost use Rattle.record_files.specs.Texts.{IsShort, text_of};
ghost use Rattle.place_run.specs.commands.Base.{rank_text};

use record_files::Field;

// The field of a base rank, a dash for none.
pub(crate) fn rank_field(rank: Option<u32>) -> Field<'static>
    ensures text { text_of result ≡ rank_text rank }
    ensures short { IsShort result }
    ensures len { length (text_of result) ≤ 20 }
{
    match rank {
        Some(rank) => Field::Number(u64::from(rank)),
        None => Field::Text(b"-"),
    }
}
