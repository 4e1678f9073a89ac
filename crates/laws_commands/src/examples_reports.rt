//! Short reports, and trees that a search gives.
ghost use Rattle.laws_commands.specs.ExamplesReports.{DepthFirst, FixedColumns, SearchProves, ShortReport};

/// The text of a short report, and where it goes wrong with another cost.
#[tactic(auto, using(crate::proofs::ShortTrees::short_report))]
pub fn short_report()
    ensures { ShortReport }
{}

/// A search that leaves no node open proves what it claims.
#[tactic(auto, using(crate::proofs::ShortTrees::search_proves))]
pub fn search_proves()
    ensures { SearchProves }
{}

/// Where a search that was cut off has gone.
#[tactic(auto, using(crate::proofs::ShortTrees::depth_first))]
pub fn depth_first()
    ensures { DepthFirst }
{}

/// What fixed and unfixed columns count for.
#[tactic(auto, using(crate::proofs::ShortTrees::fixed_columns))]
pub fn fixed_columns()
    ensures { FixedColumns }
{}
