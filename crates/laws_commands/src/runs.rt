//! Runs of what was compiled.
ghost use Rattle.laws_commands.specs.Runs.{CompiledRunsAsSource, CountsAsSource, GeneratedLines};

/// `run` on a compiled object ends as `exec` does on its source.
pub fn compiled_runs_as_source()
    ensures { CompiledRunsAsSource }
{}

/// Where `counts` ends, `exec` prints the same.
pub fn counts_as_source()
    ensures { CountsAsSource }
{}

/// What `gen` prints.
#[tactic(auto, using(crate::proofs::RunsProved::generated_lines))]
pub fn generated_lines()
    ensures { GeneratedLines }
{}
