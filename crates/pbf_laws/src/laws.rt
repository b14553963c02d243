//! The laws. Each function does nothing: what it ensures is the law.
ghost use Rattle.pbf_laws.specs.Samples.{FilesAreSo};
ghost use Rattle.pbf_laws.specs.Faults.{FaultsStandSo};
ghost use Rattle.pbf_laws.specs.Numbers.{VarintsMayBeLonger, SignsAreZigzag, CoordinatesAreRoundedDown};
ghost use Rattle.pbf_laws.specs.Ordering.{FieldsMayBeSwapped, UnknownFieldsSayNothing};
ghost use Rattle.pbf_laws.specs.DenseNodes.{DenseNodesAreNodes};

/// Groups of seven bits, the least first, in one to ten bytes, are the number that they make, in 64 bits.
pub fn varints_may_be_longer()
    ensures { VarintsMayBeLonger }
{}

/// 0, -1, 1, -2 and so on are written as 0, 1, 2, 3.
pub fn signs_are_zigzag()
    ensures { SignsAreZigzag }
{}

/// A coordinate in 1e-7 degree is granularity times value and the offset, in 1e-9 degree, rounded down.
pub fn coordinates_are_rounded_down()
    ensures { CoordinatesAreRoundedDown }
{}

/// Two fields side by side of different numbers may change places.
pub fn fields_may_be_swapped()
    ensures { FieldsMayBeSwapped }
{}

/// A field of another number says nothing, wherever it stands.
pub fn unknown_fields_say_nothing()
    ensures { UnknownFieldsSayNothing }
{}

/// Dense nodes by their differences are the nodes that they are one by one.
pub fn dense_nodes_are_nodes()
    ensures { DenseNodesAreNodes }
{}

/// Some whole files and their maps.
pub fn files_are_so()
    ensures { FilesAreSo }
{}

/// Some whole files that are refused, each kind of fault at its byte.
pub fn faults_stand_so()
    ensures { FaultsStandSo }
{}
