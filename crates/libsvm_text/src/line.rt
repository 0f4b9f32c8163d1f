// A line of a text: its label, its groups and the newline.

ghost use Rattle.std.specs.Prelude.{◌≡◌};
ghost use Rattle.libsvm_text.specs.Places.{text_ends};
ghost use Rattle.libsvm_text.specs.Read.{ReadsGroups, ReadsLine, label_at};

use super::group::read_group;
use super::place::{Found, Place};
use training_file::item::{Item, Label};

// A label and features, none where a value is outside the range. Nothing compares or prints one.
#[derive(Clone, Copy)]
pub struct LineRead {
    pub label: Label,
    pub features: Option<[i8; Item::FEATURE_COUNT]>,
}

fn read_label(from: Place) -> Option<Label>
    ensures { result ≡ label_at from.entry.text.now from.entry.at }
{
    let Place { text, at, .. } = from;
    let label = match text[at] {
        b'+' => Label::LookedUp,
        b'-' => Label::PassedOver,
        _ => return None,
    };
    (text[at + 1] == b'1').then_some(label)
}

// The groups from the place after the label on: their features, none where a value is outside the range. Such a value is a flag until the
// end, since the groups after it are read all the same.
fn read_groups(from: Place) -> Option<Found<Option<[i8; Item::FEATURE_COUNT]>>>
    ensures { ReadsGroups from.entry.used from.entry.text.now from.entry.at result }
{
    let Place { text, used, mut at } = from;
    let mut features = [0i8; Item::FEATURE_COUNT];
    let mut wide = false;
    let mut last = 0;
    while text[at] == b' ' {
        let found = read_group(
            Place {
                text,
                used,
                at: at + 1,
            },
            last,
        )?;
        match found.what.feature {
            Some(feature) => features[found.what.number - 1] = feature,
            None => wide = true,
        }
        last = found.what.number;
        at = found.end;
    }
    Some(Found {
        what: (!wide).then_some(features),
        end: at,
    })
}

// The line at a place, with its newline; none where the text has none there.
pub fn read_line(from: Place) -> Option<Found<LineRead>>
    ensures { ReadsLine from.entry.used from.entry.text.now from.entry.at result }
{
    let Place { text, used, at } = from;
    let label = read_label(from)?;
    let groups = read_groups(Place {
        text,
        used,
        at: at + 2,
    })?;
    if text[groups.end] != b'\n' {
        return None;
    }
    Some(Found {
        what: LineRead {
            label,
            features: groups.what,
        },
        end: groups.end + 1,
    })
}

// Whether a text has no bytes, or a newline for the last one.
pub fn ends(text: &[u8]) -> bool
    ensures { result ≡ text_ends text.now }
{
    matches!(text.last(), None | Some(b'\n'))
}
