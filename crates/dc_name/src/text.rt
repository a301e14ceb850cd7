//! Names in dotted text.
ghost use Rattle.std.specs.Prelude.{◌≡◌};
ghost use Rattle.dc_model.specs.Name as model;

/// A text without the dot at its end, if it has one.
pub(crate) fn without_final_dot(text: &[u8]) -> &[u8]
    ensures { result.now ≡ model.without_final_dot text.now }
{
    match text {
        [front @ .., b'.'] => front,
        _ => text,
    }
}
