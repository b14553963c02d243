//! A model of which the type says that it only slows.
ghost use Rattle.std.specs.Prelude.{◌≡◌};
ghost use Rattle.model_eval.specs.Models.{IsModel};
ghost use Rattle.model_eval.specs.Slowing.{IsSlow};

use crate::custom_model::CustomModel;
use std::marker::Model;

/// A custom model without a factor above 1. Contracts see the model.
#[derive(Debug, Drop)]
pub struct SlowModel {
    model: CustomModel,
}

impl Model for SlowModel {
    ghost use Rattle.model_eval.specs.declared.custom_model.CustomModel.{CustomModel};
    ghost use Rattle.model_eval.specs.contracts.conditions.Test as e;
    ghost use Rattle.std.specs.Coded.{codes};

    ghost Value = { CustomModel };

    ghost coded = { Prim.hlevel (codes, e.the_row.coded) };

    ghost use Rattle.model_eval.specs.Models.{IsModel};
    ghost use Rattle.model_eval.specs.Slowing.{IsSlow};

    ghost view = { λ a. a.model };

    ghost invariant = { λ a. IsModel a.model × IsSlow a.model };
}

impl SlowModel {
    /// The model itself, which has no factor above 1000000 millionths; an expression counts at its greatest
    /// value. It takes no memory.
    pub fn of(model: CustomModel) -> SlowModel
        requires model { IsModel model }
        requires slow { IsSlow model }
        ensures { result ≡ model }
    {
        SlowModel { model }
    }

    pub fn model(&self) -> &CustomModel
        ensures same { result.now ≡ self.now }
        ensures model { IsModel result.now }
        ensures slow { IsSlow result.now }
    {
        &self.model
    }
}
