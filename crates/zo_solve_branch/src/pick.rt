//! The column to branch on: of the columns in doubt that stand in rows that aren't met, the one whose probe gains most.
//!
//! At the first branch all are probed, or evenly as many as the work allows. Later they are probed in the order of their old
//! scores, until the best score is at least the next old one; and first the column of the last node of this depth, which is
//! kept while its score holds. Where no probe gains, a core names the column.
//!
//! Coarse probes don't show an arm that closes after many rounds. Where they say that the budget can't close the tree, the best
//! columns are probed again, finely, and so are those of all later branches.

use crate::probe::Probe;
use crate::tree::{FRACTION_LIMIT, Hint, Tree};
use std::alloc::Global;
use zo_model::ZeroOne;
use zo_solve_relaxation::{ONE, put, quotient};

/// The probes at the first branch visit so much.
const WORK: u64 = 60_000_000;
/// So many of them tell what one visits.
const SAMPLE: usize = 16;
/// At each later branch N columns are probed at the most.
const PROBES: u32 = 200;
/// Of fine probes, so many at the first branch, in so much work, and so many at each later one. Where the first of them takes more
/// than its part, there are no others.
const FINE_PROBES: u32 = 30;

const FINE_WORK: u64 = 100_000_000;

const FINE_PART: u64 = 8_000_000;

const LATER_FINE_PROBES: u32 = 12;
/// Coarse probes show at least one part in so many of a gain, and fine ones.
const COARSE_PART: i128 = 4;

const FINE_GAIN_PART: i128 = 2;
/// A column that is nearer to 0 or 1 than this isn't kept for a neighbouring node.
const MIDDLE: i64 = ONE / 5;
/// Where the best score is less, a core is looked for.
const LITTLE: i64 = (ONE / 32) * (ONE / 32) / 1_024;

/// The hint of the greater score, or the first.
fn better(best: Option<Hint>, next: Hint) -> Option<Hint> {
    match best {
        Some(hint) if hint.score >= next.score => Some(hint),
        _ => Some(next),
    }
}

impl Tree {
    /// Puts the columns in doubt of a row after the others.
    fn add_fractional(&mut self, row: u32, columns: &mut Vec<u32>) {
        let terms = self.rounds.row(row);
        for k in 0..terms.len() {
            let column = match terms.get(k) {
                Some((column, _)) => column,
                None => u32::MAX,
            };
            if let Some(seen) = self.seen.get_mut(column as usize) {
                if *seen != self.stamp && self.rounds.is_free(column) {
                    *seen = self.stamp;
                    if self.rounds.fractionality(column) >= FRACTION_LIMIT {
                        put(columns, column);
                    }
                }
            }
        }
    }

    /// The columns in doubt that stand in rows that aren't met.
    fn fractional(&mut self, alloc: Global) -> Vec<u32> {
        self.stamp = self.stamp.wrapping_add(1);
        let mut columns = Vec::new(alloc);
        let rows = self.rounds.rows();
        for i in 0..rows {
            if !self.rounds.is_row_met(i) {
                self.add_fractional(u32::try_from(i).unwrap_or(u32::MAX), &mut columns);
            }
        }
        self.rounds.spend(rows);
        columns
    }

    /// The column that the last node of this depth branched on, where its score holds.
    fn hinted(&mut self, need: i128) -> Option<u32> {
        let Some(hint) = self.hints.get(self.depth()).copied() else {
            return None;
        };
        let is_doubtful = self.is_fine || self.rounds.fractionality(hint.column) >= MIDDLE;
        if !self.rounds.is_free(hint.column) || !is_doubtful {
            return None;
        }
        let score = self.probe(hint.column, need).score;
        if score >= quotient(hint.score, 4).wrapping_mul(3) {
            return Some(hint.column);
        }
        None
    }

    /// The columns by these keys, the least first.
    fn ordered(&self, alloc: Global, columns: &[u32], by_score: bool) -> Vec<u32> {
        let mut keys: Vec<(i64, usize, u32)> = Vec::new(alloc);
        for (k, j) in columns.iter().enumerate() {
            let key = if by_score {
                self.score_of(*j)
            } else {
                self.rounds.fractionality(*j)
            };
            put(&mut keys, (key.wrapping_neg(), k, *j));
        }
        keys.sort_unstable();
        let mut columns = Vec::new(alloc);
        for key in &keys {
            put(&mut columns, key.2);
        }
        columns
    }

    /// Probes a column, and keeps its score for the whole tree.
    fn probe_at_root(&mut self, column: u32, need: i128) -> Probe {
        let told = self.probe(column, need);
        if let Some(it) = self.scores.get_mut(column as usize) {
            *it = told.score;
        }
        told
    }

    /// Probes the columns for the first time, the most doubtful first, or evenly as many as the work allows; up to one that
    /// closes both arms.
    fn probe_first(&mut self, alloc: Global, columns: &[u32], need: i128) -> Option<Hint> {
        let columns = self.ordered(alloc, columns, false);
        let begun = self.rounds.work();
        let end = begun.saturating_add(WORK);
        let mut step: usize = 1;
        let mut wait: usize = 0;
        let mut gain: i64 = 0;
        for (k, column) in columns.iter().enumerate() {
            if k == SAMPLE {
                let each = (self.rounds.work().saturating_sub(begun) / 16).saturating_add(1);
                let all = each.saturating_mul(columns.len() as u64) / WORK;
                step = usize::try_from(all).unwrap_or(1).max(1);
            }
            if self.rounds.work() > end {
                break;
            }
            if wait == 0 {
                let told = self.probe_at_root(*column, need);
                gain = gain.max(told.least);
                if told.is_closing {
                    return Some(told.hint(*column));
                }
                wait = step;
            }
            wait = wait.saturating_sub(1);
        }
        let lack = need.wrapping_sub(self.rounds.bound());
        self.note_gains(lack, gain, COARSE_PART);
        None
    }

    /// Has the probes be fine from here on. Whether one of the column takes no more than its part.
    fn turn_fine(&mut self, column: u32, need: i128) -> bool {
        let begun = self.rounds.work();
        self.is_fine = true;
        self.probe(column, need);
        self.is_fine = self.rounds.work().saturating_sub(begun) <= FINE_PART;
        if self.is_fine {
            self.rounds.take_noted_weight();
        }
        self.is_fine
    }

    /// Probes the columns finely, by their coarse scores, the best first; up to one that closes both arms. Of columns with the same
    /// score the first alone is probed, since it is likely that they stand for each other. The column whose probe gains most.
    fn probe_finely(&mut self, columns: &[u32], need: i128) -> Option<Hint> {
        let end = self.rounds.work().saturating_add(FINE_WORK);
        let mut best: Option<Hint> = None;
        let mut left = FINE_PROBES;
        let mut same: i64 = -1;
        let mut score: i64 = -1;
        let mut gain: i64 = 0;
        for column in columns {
            let was = self.score_of(*column);
            if was < 0 || (was != same && (left == 0 || self.rounds.work() > end)) {
                break;
            }
            if was != same {
                same = was;
                left = left.saturating_sub(1);
                let told = self.probe(*column, need);
                score = told.score;
                gain = gain.max(told.least);
                if told.is_closing {
                    return Some(told.hint(*column));
                }
                best = better(best, told.hint(*column));
            }
            if let Some(it) = self.scores.get_mut(*column as usize) {
                *it = score;
            }
        }
        let lack = need.wrapping_sub(self.rounds.bound());
        self.note_gains(lack, gain, FINE_GAIN_PART);
        best
    }

    /// The column for the first branch by fine probes, where coarse ones give no hope; none where those take long.
    fn refined(&mut self, alloc: Global, columns: &[u32], need: i128) -> Option<Hint> {
        if !self.is_hopeless || !self.rounds.has_prices() {
            return None;
        }
        let columns = self.ordered(alloc, columns, true);
        let first = columns.first().copied()?;
        if !self.turn_fine(first, need) {
            return None;
        }
        self.probe_finely(&columns, need)
    }

    /// The column whose probe gains most, probed in the order of old scores; of fine probes one for each old score.
    fn best_probed(&mut self, columns: &[u32], need: i128) -> Option<Hint> {
        let mut best: Option<Hint> = None;
        let mut left = if self.is_fine {
            LATER_FINE_PROBES
        } else {
            PROBES
        };
        let mut same: i64 = -1;
        for column in columns {
            let was = self.score_of(*column);
            if let Some(hint) = &best {
                let is_last = left == 0 || !self.may_go_on();
                if is_last || hint.score >= was {
                    break;
                }
                if self.is_fine && was == same {
                    continue;
                }
            }
            same = was;
            left = left.saturating_sub(1);
            let told = self.probe(*column, need);
            self.score(*column, told.score);
            if told.is_closing {
                return Some(told.hint(*column));
            }
            best = better(best, told.hint(*column));
        }
        best
    }

    /// Notes the column that a node of this depth branched on.
    fn note(&mut self, hint: Hint) {
        let depth = self.depth();
        for _ in self.hints.len()..depth.saturating_add(1) {
            put(
                &mut self.hints,
                Hint {
                    column: u32::MAX,
                    score: 0,
                },
            );
        }
        if let Some(it) = self.hints.get_mut(depth) {
            *it = hint;
        }
    }

    /// Some unfixed column of the first row that isn't met, if there is one.
    fn wanted(&mut self) -> Option<u32> {
        let row = self.rounds.first_unmet()?;
        let terms = self.rounds.row(row);
        for k in 0..terms.len() {
            if let Some((column, _)) = terms.get(k) {
                if self.rounds.is_free(column) {
                    return Some(column);
                }
            }
        }
        None
    }

    /// The column to branch on where the rounds stand; none where they don't tell.
    pub fn pick(&mut self, alloc: Global, z: &ZeroOne, need: i128) -> Option<u32> {
        if !self.may_go_on() {
            return self.wanted();
        }
        let columns = self.fractional(alloc);
        if columns.is_empty() {
            return self.wanted();
        }
        if let Some(column) = self.hinted(need) {
            return Some(column);
        }
        if !self.has_scores {
            self.has_scores = true;
            let closing = self.probe_first(alloc, &columns, need);
            let first = match closing {
                Some(hint) => Some(hint),
                None => self.refined(alloc, &columns, need),
            };
            if let Some(hint) = first {
                self.note(hint);
                return Some(hint.column);
            }
        }
        let columns = self.ordered(alloc, &columns, true);
        let Some(mut best) = self.best_probed(&columns, need) else {
            return self.wanted();
        };
        if best.score < LITTLE {
            if let Some(column) = self.core_column(alloc, z, need) {
                best.column = column;
            }
        }
        self.note(best);
        Some(best.column)
    }
}
