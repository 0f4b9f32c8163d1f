// The two passes over a text: one judges it, and where nothing is refused the other puts the records of its lines. Nothing is kept between
// them but numbers.

ghost use Rattle.std.specs.Prelude.{◌≡◌, ◌≤◌};
ghost use Rattle.buffer.specs.Put.{Put, Room};
ghost use Rattle.training_file.specs.Layout.{feature_count};
ghost use Rattle.written_file.specs.File.{item_records};
ghost use Rattle.libsvm_text.specs.Lines.{text_lines};
ghost use Rattle.importing.specs.Judged.{Importable, found_items, judged};

use buffer::put::Cursor;
use libsvm_text::line::{ends, read_line};
use libsvm_text::place::Place;
use training_file::item::Item;
use training_file::refusal::Refusal;
use written_file::record::{following, put_record};

// Of a text of the form: how many lines there are, and how many of them are looked up, none where a value is outside the range. Nothing compares
// or prints one.
#[derive(Clone, Copy)]
pub struct Judged {
    pub lines: usize,
    pub looked_up: Option<usize>,
}

// What the whole text is, whatever it holds. Of one that is not of the form nothing else counts, so that a value outside the range is a flag until
// the end. The loop is no `for`, since it finds out how many lines there are.
pub fn judge_text(text: &[u8], used: usize) -> Result<Judged, Refusal>
    requires { used ≤ feature_count }
    ensures { result ≡ judged (text_lines used text.now) }
{
    if !ends(text) {
        return Err(Refusal::Text);
    }
    let mut wide = false;
    let mut lines = 0;
    let mut looked_up = 0;
    let mut at = 0;
    while at < text.len() {
        let found = read_line(Place { text, used, at }).ok_or(Refusal::Text)?;
        wide = wide || found.what.features.is_none();
        lines += 1;
        looked_up += found.what.label.looked_up();
        at = found.end;
    }
    Ok(Judged {
        lines,
        looked_up: (!wide).then_some(looked_up),
    })
}

// The records of a judged text's lines, one after the other.
pub fn put_lines(out: &mut Cursor, text: &[u8], used: usize, lines: usize)
    requires room { Room (item_records (found_items (text_lines used text.now)) lines lines) out.old }
    requires importable { Importable used text.now lines }
    ensures { Put (item_records (found_items (text_lines used text.now)) lines lines) out.old out.new }
{
    let mut at = 0;
    for k in 0..lines {
        let found = read_line(Place { text, used, at }).unwrap();
        let item = Item {
            features: found.what.features.unwrap(),
            label: found.what.label,
        };
        put_record(out, following(lines, k + 1), item);
        at = found.end;
    }
}
