//! The laws. Each function does nothing: what it ensures is the law.
ghost use Rattle.query_laws.specs.Laws.{QueriesAreRead, FaultsStandAtTheirLine};
ghost use Rattle.query_laws.specs.Samples.{LineFaultsAreSo};

/// Lines of queries, among empty ones and remarks, are read as these queries, in order.
pub fn queries_are_read()
    ensures { QueriesAreRead }
{}

/// The fault of a line is the fault of the text, at the line's number and the fault's byte.
pub fn faults_stand_at_their_line()
    ensures { FaultsStandAtTheirLine }
{}

/// Each kind of fault stands at its byte of the line.
pub fn line_faults_are_so()
    ensures { LineFaultsAreSo }
{}
