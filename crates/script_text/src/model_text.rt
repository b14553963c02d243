//! A profile's model.
ghost use Rattle.std.specs.Prelude.{◌≡◌, ◌<◌, ◌^◌, length, Ok, Err, IfOk, IfErr, None, MatchResult, [], ℕ};
ghost use Rattle.gh_base.specs.Readings.{Gives};
ghost use Rattle.model_eval.specs.Models.{IsModel};
ghost use Rattle.script_text.specs.ModelTexts.{model_at};

use exact_json::{JsonFault, read};
use gh_base::{PartFault, ScriptKind};
use model_eval::CustomModel;
use model_parser::{ModelFault, parse_model};
use std::alloc::Global;

/// Why a text is no model.
pub(crate) type TextFault = PartFault<ScriptKind>;

/// The model that a text is.
#[tactic(auto, unfolding(crate::specs::ModelTexts::model_at))]
pub(crate) fn model_in(alloc: Global, text: &[u8]) -> Result<CustomModel, TextFault>
    requires { length text.now < 2 ^ 32 }
    ensures read { Gives result (model_at text.now) }
    ensures model { IfOk result IsModel }
{
    let json = match read(alloc, text) {
        Ok(json) => json,
        Err(JsonFault::NoMemory) => return Err(TextFault::NoMemory),
        Err(JsonFault::At { .. }) => return Err(TextFault::Is(ScriptKind::Json)),
    };
    match parse_model(alloc, &json) {
        Ok(model) => Ok(model),
        Err(ModelFault::NoMemory) => Err(TextFault::NoMemory),
        Err(ModelFault::At { .. }) => Err(TextFault::Is(ScriptKind::Model)),
    }
}
