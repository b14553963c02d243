//! The laws. The function does nothing that shows: what it ensures is the law.
ghost use Rattle.summary_laws.specs.Laws.{FourLandmarks, OneSummary, SixteenRoutes};

/// All runs of a size have one summary, whatever their threads did: the preparation has all four
/// landmarks, and each query is answered with a walk.
pub fn sizes_have_one_summary()
    ensures summary { OneSummary }
    ensures landmarks { FourLandmarks }
    ensures routes { SixteenRoutes }
{}
