//! The words of kinds and parts.
ghost use Rattle.std.specs.Prelude.{◌≡◌};
ghost use Rattle.script_text.specs.Words.{json_word, model_word, part_word};

use gh_base::{JsonKind, ModelKind, Part};

pub(crate) fn json_word_of(kind: JsonKind) -> &'static str
    ensures { result.now ≡ json_word kind }
{
    match kind {
        JsonKind::End => "End",
        JsonKind::Byte => "Byte",
        JsonKind::Utf8 => "Utf8",
        JsonKind::Escape => "Escape",
        JsonKind::TooLong => "TooLong",
        JsonKind::TwiceKey => "TwiceKey",
        JsonKind::Depth => "Depth",
        JsonKind::After => "After",
    }
}

pub(crate) fn model_word_of(kind: ModelKind) -> &'static str
    ensures { result.now ≡ model_word kind }
{
    match kind {
        ModelKind::NotObject => "NotObject",
        ModelKind::UnknownKey => "UnknownKey",
        ModelKind::NotList => "NotList",
        ModelKind::Statement => "Statement",
        ModelKind::NoIf => "NoIf",
        ModelKind::Condition => "Condition",
        ModelKind::Name => "Name",
        ModelKind::Number => "Number",
        ModelKind::Feature => "Feature",
        ModelKind::TwiceId => "TwiceId",
        ModelKind::Geometry => "Geometry",
        ModelKind::Ring => "Ring",
        ModelKind::Position => "Position",
        ModelKind::TooMany => "TooMany",
    }
}

pub(crate) fn part_word_of(part: Part) -> &'static str
    ensures { result.now ≡ part_word part }
{
    match part {
        Part::Top => "top",
        Part::Areas => "areas",
        Part::Speed => "speed",
        Part::Priority => "priority",
        Part::Influence => "distance_influence",
    }
}
