//! How a condition groups, as a function without a body: its clause says it.
ghost use Rattle.std.specs.Prelude.{◌≡◌, List, map, Ok};
ghost use Rattle.model_eval.specs.declared.custom_model.Area.{Area};
ghost use Rattle.model_texts.specs.Conditions.{condition_of};
ghost use Rattle.model_texts.specs.Grouping.{groups};

/// `!` binds closest, then `&&`, then `||`; parts with one sign between them are one list, and parentheses keep
/// theirs. Spaces mean nothing.
pub fn conditions_group_so()
    ensures { (areas : List Area) → map (λ group. condition_of areas group.0) groups ≡ map (λ group. Ok group.1) groups }
{}
