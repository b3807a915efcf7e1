//! Theorems about the definitions that this crate's contracts use. The contract of each function is a theorem.

ghost use Rattle.dep_order.specs.Ranks.{RankingExcludesCycles};
ghost use Rattle.dep_order.specs.Timetables.{OffsetsAreGreatestSums, PhasesEndInTime};

/// States that an application's halt offset is the sum of halt times along some chain of its dependents, and that no
/// such chain has a greater sum. The same holds for an init offset, with the init times along the chains of
/// applications that the application needs. Without a chain, an offset is 0.
pub fn offsets_are_greatest_sums()
    ensures { OffsetsAreGreatestSums }
{}

/// States that each phase of an application that is on ends within the same phase of the configuration and takes at
/// least one frame. If an application is on, some application has a halt offset of 0, and some application has an
/// init offset of 0. The halt phase and the init phase take at most 128 frames, and the prepare phase takes at
/// most 16.
pub fn phases_end_in_time()
    ensures { PhasesEndInTime }
{}

/// States that if the needs determine a rank for each application, the needs have no cycle. Therefore `rank` returns
/// a cycle whenever one exists.
pub fn ranking_excludes_cycles()
    ensures { RankingExcludesCycles }
{}
