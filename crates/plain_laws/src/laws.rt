//! The laws. Each function does nothing: what it ensures is the law.
ghost use Rattle.plain_laws.specs.Characters.{CharactersMayBeEscaped};
ghost use Rattle.plain_laws.specs.Coordinates.{CoordinatesAreExact, NodesAreWhereTheySay};
ghost use Rattle.plain_laws.specs.Ordering.{NodeWordsMayBeSwapped, WayWordsMayBeSwapped, SkippedWordsSayNothing};
ghost use Rattle.plain_laws.specs.Samples.{MapsAreSo, FaultsStandSo};

/// Text without a percent sign is itself, and between percent signs stands the number of a character.
pub fn characters_may_be_escaped()
    ensures { CharactersMayBeEscaped }
{}

/// A decimal is its digits over ten to the power of its places, multiplied out.
pub fn coordinates_are_exact()
    ensures { CoordinatesAreExact }
{}

/// `y` is the latitude and `x` the longitude, in either order.
pub fn nodes_are_where_they_say()
    ensures { NodesAreWhereTheySay }
{}

/// Two words of a node that stand side by side may change places.
pub fn node_words_may_be_swapped()
    ensures { NodeWordsMayBeSwapped }
{}

/// Two words of a way that stand side by side may change places.
pub fn way_words_may_be_swapped()
    ensures { WayWordsMayBeSwapped }
{}

/// A word that is skipped says nothing, wherever it stands.
pub fn skipped_words_say_nothing()
    ensures { SkippedWordsSayNothing }
{}

/// Some whole texts and their maps.
pub fn maps_are_so()
    ensures { MapsAreSo }
{}

/// Some whole texts that are refused, each kind of fault at its line and byte.
pub fn faults_stand_so()
    ensures { FaultsStandSo }
{}
