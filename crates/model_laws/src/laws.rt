//! The laws. Each function does nothing: what it ensures is the law.
ghost use Rattle.model_laws.specs.Acting.{ActionsAreRead};
ghost use Rattle.model_laws.specs.Actions.{ActionsAreSo};
ghost use Rattle.model_laws.specs.Chains.{ChainsAreRun};
ghost use Rattle.model_laws.specs.Conditions.{NamesAreSo, WordsAreSo, ConditionsAreSo, ConditionFaultsStandSo};
ghost use Rattle.model_laws.specs.Grammar.{ConditionsAreRead};
ghost use Rattle.model_laws.specs.Wholes.{ModelsAreRead, OrphansAreRefused};

/// Each name of a truth value, and each name of a number with each operator.
pub fn names_are_so()
    ensures { NamesAreSo }
{}

/// Each word of each enum, by its place among them.
pub fn words_are_so()
    ensures { WordsAreSo }
{}

/// Areas, constants, signs and spaces.
pub fn conditions_are_so()
    ensures { ConditionsAreSo }
{}

/// Conditions that are refused, with the byte and the kind.
pub fn condition_faults_stand_so()
    ensures { ConditionFaultsStandSo }
{}

/// Decimals and expressions, in the units of what they act on.
pub fn actions_are_so()
    ensures { ActionsAreSo }
{}

/// What is written of a condition is read as that condition, with any spaces between its tokens.
pub fn conditions_are_read()
    ensures { ConditionsAreRead }
{}

/// What is written of an action is read as that action, in its units.
pub fn actions_are_read()
    ensures { ActionsAreRead }
{}

/// An object that writes a model is read as that model, in whatever order its members stand.
pub fn models_are_read()
    ensures { ModelsAreRead }
{}

/// An `else_if` or `else` that stands behind neither an `if` nor an `else_if` is refused, by its part and item.
pub fn orphans_are_refused()
    ensures { OrphansAreRefused }
{}

/// Of an `if` and what follows it up to the next the first true statement acts, and each action in its units.
pub fn chains_are_run()
    ensures { ChainsAreRun }
{}
