//! Names in cached bodies, which are whole: no pointer stands in them.
ghost use Rattle.std.specs.Prelude.{◌≡◌, ◌≤◌, ◌<◌, ◌+◌, length, option_map, None, Some, MatchOption, IfSome};
ghost use Rattle.dc_model.specs.Name as model;
ghost use Rattle.dc_model.specs.Bodies.{plain_name_at};
ghost use Rattle.dc_items.specs.Labels.{label_of};
ghost use Rattle.dc_items.specs.Read.{plain_read};

use dc_limits::LONGEST_LABEL;
use dc_name::Name;

/// A name, and the place behind it.
#[derive(Drop)]
pub(crate) struct PlainName {
    pub(crate) name: Name,
    pub(crate) after: usize,
}

/// The label at a place, the empty one where a name ends. `None` where its length is over 63, as a pointer's first byte is, or
/// where it passes the body's end.
fn label_at(body: &[u8], at: usize) -> Option<&[u8]>
    ensures label { MatchOption result (label_of (model.part_at body.now at) ≡ None) (λ l. label_of (model.part_at body.now at) ≡ Some l.now) }
    ensures within { IfSome result (λ l. at + (1 + length l.now) ≤ length body.now) }
{
    if at >= body.len() {
        return None;
    }
    let first = body[at];
    let start = at + 1;
    let len = first as usize;
    if first > LONGEST_LABEL || len > body.len() - start {
        return None;
    }
    Some(&body[start..start + len])
}

/// The name at a place, and the place behind its empty label. `None` where a label's length is over 63, as a pointer's first
/// byte is, where the name passes the body's end, or where it has over 255 bytes.
pub(crate) fn plain_name(body: &[u8], pos: usize) -> Option<PlainName>
    ensures name { option_map plain_read result ≡ plain_name_at body.now pos }
    ensures after { IfSome result (λ r. pos < r.after) }
    ensures within { IfSome result (λ r. r.after ≤ length body.now) }
{
    let mut name = Name::root();
    let mut at = pos;
    loop {
        let label = label_at(body, at)?;
        let after = at + 1 + label.len();
        if label.is_empty() {
            return Some(PlainName { name, after });
        }
        if !name.push(label) {
            return None;
        }
        at = after;
    }
}
