//! Limits: the bytes of the files that commands read, and the slots, branches and instructions of a compilation. And where
//! code may spill.

use nv_base::SOURCE_SCRATCH;
use nv_text::MOST_BYTES;

/// A source.
pub const SOURCE_LIMIT: u64 = MOST_BYTES as u64;

/// An object: 2^20 instructions, 65,535 exceptions with the longest names, 2^20 starts, and the header.
pub const OBJECT_LIMIT: u64 = 17_104_847;

/// A memory text.
pub const MEMORY_LIMIT: u64 = 4_194_304;

/// An assembly text.
pub const ASSEMBLY_LIMIT: u64 = 67_108_864;

/// A schedule.
pub const SCHEDULE_LIMIT: u64 = 4_194_304;

/// A text of weights.
pub const WEIGHTS_LIMIT: u64 = 16_777_216;

/// A report.
pub const REPORT_LIMIT: u64 = 67_108_864;

/// The most slots that code may have for values without a register, and how many it may have where the words don't say it.
pub const MOST_SLOTS: u32 = 128;

/// How many branches the search for banks may take, where the words don't say it.
pub const DEFAULT_BUDGET: u32 = 2_000;

/// The most that they can say.
pub const MOST_BUDGET: u32 = 1_000_000;

/// How many instructions compiled code may have, where the words don't say it.
pub const DEFAULT_STORE: u32 = 2_048;

/// The most that they can say.
pub const MOST_STORE: u32 = 1_048_576;

/// The first scratch word that code may use for itself, where the commands run it.
pub const SPILL_BASE: u32 = SOURCE_SCRATCH;
