//! What columns and multipliers were: their sums over a window, what was kept of them, and what is to be undone.

use crate::rounds::Rounds;
use std::alloc::Global;
use std::mem;

/// The log has at most so many moves.
const LIMIT: usize = 1 << 23;

/// A column or a multiplier, and its value before a move.
#[derive(Clone, Copy, Drop)]
pub enum LoggedValue {
    Column(u32, i32),
    Dual(u32, i64),
}

/// What is to be undone.
#[derive(Drop)]
pub struct Log {
    moves: Vec<LoggedValue>,
    is_on: bool,
    // the part of the log that is being written
    stamp: u32,
}

impl Log {
    /// Nothing.
    pub fn new(alloc: Global) -> Log {
        Log {
            moves: Vec::new(alloc),
            is_on: false,
            stamp: 1,
        }
    }

    /// Begins a new part.
    fn turn(&mut self) {
        self.stamp = self.stamp.wrapping_add(1);
    }

    /// Forgets what could be undone.
    pub fn forget(&mut self) {
        self.moves.clear();
        self.turn();
    }

    /// Notes a move, if it is the first one in this part. One for which there is no room isn't undone.
    fn note(&mut self, past: &mut History, was: LoggedValue) {
        if self.is_on && past.stamp != self.stamp {
            past.stamp = self.stamp;
            if self.moves.len() < LIMIT {
                let _ = self.moves.push(was);
            }
        }
    }
}

/// What a column or a multiplier was, in 16 bytes.
#[derive(Clone, Copy, Drop)]
pub struct History {
    // the sum of its values in the rounds of this window, up to a round
    pub total: i64,
    pub since: u32,
    // the part of the log that has it
    pub stamp: u32,
}

impl History {
    /// Nothing yet.
    pub fn none() -> History {
        History {
            total: 0,
            since: 0,
            stamp: 0,
        }
    }

    /// A window begins.
    pub fn open(&mut self, clock: u32) {
        self.total = 0;
        self.since = clock;
    }

    /// It was this up to a round.
    fn add(&mut self, value: i64, clock: u32) {
        self.total = self.sum(value, clock);
        self.since = clock;
    }

    /// The sum of its values up to a round, where it is this now.
    pub fn sum(&self, value: i64, clock: u32) -> i64 {
        let rounds = i64::from(clock.wrapping_sub(self.since));
        self.total.wrapping_add(value.wrapping_mul(rounds))
    }
}

/// What was kept of a column.
#[derive(Clone, Copy, Drop)]
pub struct ColumnPast {
    // what the means say of it
    pub mean: i64,
    // when the window began, at the best bound of a run, and where it was kept
    pub begun: i32,
    pub best: i32,
    pub kept: i32,
}

impl ColumnPast {
    /// Nothing yet.
    pub fn none() -> ColumnPast {
        ColumnPast {
            mean: 0,
            begun: 0,
            best: 0,
            kept: 0,
        }
    }
}

/// What was kept of a multiplier.
#[derive(Clone, Copy, Drop)]
pub struct DualPast {
    // when the window began, at the best bound of a run, and where it was kept
    pub begun: i64,
    pub best: i64,
    pub kept: i64,
}

impl DualPast {
    /// Nothing yet.
    pub fn none() -> DualPast {
        DualPast {
            begun: 0,
            best: 0,
            kept: 0,
        }
    }
}

impl Rounds {
    /// Notes that a column moves.
    pub(crate) fn note_column(&mut self, column: u32, was: i32) {
        if self.log.is_on || self.window.is_open {
            if let Some(past) = self.column_histories.get_mut(column as usize) {
                self.log.note(past, LoggedValue::Column(column, was));
                if self.window.is_open {
                    past.add(i64::from(was), self.window.clock);
                }
            }
        }
    }

    /// Notes that a multiplier moves.
    pub(crate) fn note_dual(&mut self, row: u32, was: i64) {
        if self.log.is_on || self.window.is_open {
            if let Some(past) = self.dual_histories.get_mut(row as usize) {
                self.log.note(past, LoggedValue::Dual(row, was));
                if self.window.is_open {
                    past.add(was, self.window.clock);
                }
            }
        }
    }

    /// Keeps all values.
    pub fn keep(&mut self) {
        for (past, column) in self.column_pasts.iter_mut().zip(&self.columns) {
            past.kept = column.value;
        }
        for (past, dual) in self.dual_pasts.iter_mut().zip(&self.duals) {
            past.kept = dual.value;
        }
    }

    /// Gives back the values that were kept.
    pub fn give_back(&mut self) {
        for (column, past) in self.columns.iter_mut().zip(&self.column_pasts) {
            column.value = past.kept;
        }
        for (dual, past) in self.duals.iter_mut().zip(&self.dual_pasts) {
            dual.value = past.kept;
        }
        self.remake()
    }

    /// The value of a column that was kept.
    pub fn kept(&self, column: usize) -> i64 {
        match self.column_pasts.get(column) {
            Some(past) => i64::from(past.kept),
            None => 0,
        }
    }

    /// Keeps all values as those of the best bound.
    pub fn keep_best(&mut self) {
        for (past, column) in self.column_pasts.iter_mut().zip(&self.columns) {
            past.best = column.value;
        }
        for (past, dual) in self.dual_pasts.iter_mut().zip(&self.duals) {
            past.best = dual.value;
        }
        let both = self.columns.len().saturating_add(self.duals.len());
        self.spend(both);
    }

    /// Gives back the values of the best bound.
    pub fn give_best(&mut self) {
        for (column, past) in self.columns.iter_mut().zip(&self.column_pasts) {
            column.value = past.best;
        }
        for (dual, past) in self.duals.iter_mut().zip(&self.dual_pasts) {
            dual.value = past.best;
        }
        self.remake()
    }

    /// Begins a new part of the log; where it begins.
    pub fn log_mark(&mut self) -> usize {
        self.log.turn();
        self.log.moves.len()
    }

    /// Forgets what could be undone.
    pub fn forget(&mut self) {
        self.log.forget()
    }

    /// Whether moves go into the log from now on; whether they did before.
    pub fn set_log(&mut self, is_on: bool) -> bool {
        self.log.turn();
        mem::replace(&mut self.log.is_on, is_on)
    }

    /// Puts another log in place of this one, and gives this one.
    pub fn replace_log(&mut self, log: Log) -> Log {
        let stamp = self.log.stamp;
        let was = mem::replace(&mut self.log, log);
        self.log.stamp = stamp;
        self.log.turn();
        was
    }

    /// Undoes one move.
    fn undo_one(&mut self, was: LoggedValue) {
        match was {
            LoggedValue::Column(column, value) => {
                self.set_value(column, value);
                self.mark(column)
            }
            LoggedValue::Dual(row, value) => {
                self.set_dual(row, value);
                self.wake(row)
            }
        }
    }

    /// Undoes all moves since a mark.
    pub fn roll_back(&mut self, mark: usize) {
        let is_on = self.set_log(false);
        for _ in mark..self.log.moves.len() {
            if let Some(was) = self.log.moves.pop() {
                self.undo_one(was);
            }
        }
        self.set_log(is_on);
    }

    /// Sets aside what the next round looks at.
    pub fn set_aside(&mut self) {
        self.due_columns.swap_aside();
        self.due_duals.swap_aside()
    }

    /// Has nothing looked at in the next round.
    pub fn clear_due(&mut self) {
        self.due_columns.take_now();
        self.due_duals.take_now();
    }

    /// Has looked at in the next round what was set aside, and nothing else.
    pub fn take_aside(&mut self) {
        self.clear_due();
        self.set_aside()
    }
}
