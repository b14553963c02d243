//! The laws. Each function does nothing: what it ensures is the law.
ghost use Rattle.json_laws.specs.Escaping.{NamedEscapesAreRead, UnicodeEscapesAreRead, PairsAreRead};
ghost use Rattle.json_laws.specs.Grammar.{TextsAreRead};
ghost use Rattle.json_laws.specs.Numbering.{DecimalsAreExact};
ghost use Rattle.json_laws.specs.Samples.{TextsAreSo, FaultsStandSo};
ghost use Rattle.json_laws.specs.Spacing.{SpaceMeansNothing};

/// An escape of two bytes and its `\u` form are one character, whatever follows.
pub fn escapes_are_their_characters()
    ensures { NamedEscapesAreRead }
{}

/// A `\u` escape is the character of its number, in digits of either case, but for surrogates.
pub fn unicode_escapes_are_their_numbers()
    ensures { UnicodeEscapesAreRead }
{}

/// Two halves of a surrogate pair are one character.
pub fn pairs_are_one_character()
    ensures { PairsAreRead }
{}

/// A decimal is the number that its text says: digits times a power of ten, multiplied out.
pub fn decimals_are_exact()
    ensures { DecimalsAreExact }
{}

/// White space before a value, behind brackets, colons and commas and before them means nothing.
pub fn space_means_nothing()
    ensures { SpaceMeansNothing }
{}

/// Each text of a value reads as that value: numbers in each of their forms, white space wherever it may stand.
pub fn texts_are_read()
    ensures { TextsAreRead }
{}

/// Some whole texts and their values.
pub fn texts_are_so()
    ensures { TextsAreSo }
{}

/// Some whole texts that are refused, each kind of fault at its byte.
pub fn faults_stand_so()
    ensures { FaultsStandSo }
{}
