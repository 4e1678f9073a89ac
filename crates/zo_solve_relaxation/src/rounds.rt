//! Rounds that look for the best fractions of the columns, and for the multipliers of the rows that prove them best.
//!
//! Columns and multipliers move in turn, as whole numbers in units of 1 / 4194304: each column against what the multipliers say
//! of its worth, each multiplier against what its row lacks, with steps in proportion to the row's and the column's size (a
//! primal-dual hybrid gradient method with diagonal steps). A round looks only at the columns and rows for which something
//! changed: a column is due when the multiplier of one of its rows moved, a row when one of its columns did. All sums are kept
//! as differences, the bound that the multipliers give too, so it is known at each moment.
//!
//! Nothing rests on the rounds: a leaf counts only by the bound that is computed as the checker does.

use crate::column::{Column, Pace, Weight};
use crate::dual::Dual;
use crate::due::{Due, Marks};
use crate::matrix::Matrix;
use crate::places::Places;
use crate::terms::Terms;
use crate::undo::{ColumnPast, DualPast, History, Log};
use crate::window::Window;
use std::alloc::{AllocError, Global};
use std::mem;
use zo_model::ZeroOne;

/// A whole column, and a multiplier of 1.
pub const ONE: i64 = 1 << 22;

/// The state of the rounds, with the columns that are fixed.
#[derive(Drop)]
pub struct Rounds {
    pub(crate) matrix: Matrix,
    // what each column costs, over the divisor
    costs: Vec<u32>,
    pub(crate) columns: Vec<Column>,
    pub(crate) duals: Vec<Dual>,
    // what each column, and each row, was
    pub(crate) column_histories: Vec<History>,
    pub(crate) dual_histories: Vec<History>,
    pub(crate) column_pasts: Vec<ColumnPast>,
    pub(crate) dual_pasts: Vec<DualPast>,
    pub(crate) due_columns: Due,
    pub(crate) due_duals: Due,
    pub(crate) places: Places,
    pub(crate) log: Log,
    pub(crate) window: Window,
    // the greatest common divisor of the costs
    divisor: u32,
    pub(crate) first_weight: Weight,
    pub(crate) weight: Weight,
    // a weight that was noted for later
    noted_weight: Weight,
    tolerance: i64,
    pub(crate) bound: i128,
    has_prices: bool,
    // how many columns, rows and terms were visited, at how many the rounds end, and at how many they end at the latest
    work: u64,
    limit: u64,
    most: u64,
}

/// `a / b`, or 0 where there is no such number.
pub fn quotient(a: i64, b: i64) -> i64 {
    a.checked_div(b).unwrap_or(0)
}

/// The product with a reciprocal, shifted down, rounded towards 0.
pub(crate) fn scaled(a: i64, reciprocal: u32, shift: u32) -> i64 {
    let product = i128::from(a.wrapping_abs()).wrapping_mul(i128::from(reciprocal));
    let part = product.checked_shr(shift).unwrap_or(0);
    let part = i64::try_from(part).unwrap_or(i64::MAX);
    if a < 0 { part.wrapping_neg() } else { part }
}

/// 2^32 over the sum of the sizes of the coefficients; 0 where there is none.
fn reciprocal_of(terms: Terms<'_>) -> u32 {
    let mut size: u64 = 0;
    for k in 0..terms.len() {
        if let Some((_, a)) = terms.get(k) {
            size = size.wrapping_add(u64::try_from(a.wrapping_abs()).unwrap_or(0));
        }
    }
    let all: u64 = 1 << 32;
    u32::try_from(all.checked_div(size).unwrap_or(0)).unwrap_or(u32::MAX)
}

/// The greatest common divisor.
fn divisor_of(a: u32, b: u32) -> u32 {
    let mut a = a;
    let mut b = b;
    for _ in 0..64 {
        if b == 0 {
            return a;
        }
        let rest = a % b;
        a = b;
        b = rest;
    }
    1
}

/// The least e of 0 or more with a mean positive cost of at most 16 times 2^e.
fn exponent_of(costs: &[u32]) -> i64 {
    let mut sum: i64 = 0;
    let mut count: i64 = 0;
    for cost in costs {
        if *cost > 0 {
            sum = sum.wrapping_add(i64::from(*cost));
            count = count.wrapping_add(1);
        }
    }
    let mean = quotient(sum, count).max(1);
    let mut exponent: i64 = 0;
    let mut most: i64 = 16;
    for _ in 0..32 {
        if most < mean {
            most = most.wrapping_mul(2);
            exponent = exponent.wrapping_add(1);
        }
    }
    exponent
}

/// The costs over their divisor.
fn costs_of(alloc: Global, z: &ZeroOne, divisor: u32) -> Result<Vec<u32>, AllocError> {
    let mut costs = Vec::with_capacity(alloc, z.costs.len())?;
    for cost in &z.costs {
        costs.push(cost.checked_div(divisor).unwrap_or(0))?;
    }
    Ok(costs)
}

/// A column each, at 0, unfixed.
fn columns_of(alloc: Global, z: &ZeroOne, matrix: &Matrix) -> Result<Vec<Column>, AllocError> {
    let mut columns = Vec::with_capacity(alloc, z.costs.len())?;
    for j in 0..z.costs.len() {
        let terms = matrix.columns.list(u32::try_from(j).unwrap_or(u32::MAX));
        columns.push(Column {
            pull: 0,
            value: 0,
            ahead: 0,
            price: 0,
            reciprocal: reciprocal_of(terms),
            place: None,
        })?;
    }
    Ok(columns)
}

/// A multiplier each, at 0.
fn duals_of(alloc: Global, z: &ZeroOne, matrix: &Matrix) -> Result<Vec<Dual>, AllocError> {
    let mut duals = Vec::with_capacity(alloc, z.rows.len())?;
    for (i, row) in z.rows.iter().enumerate() {
        let terms = matrix.rows.list(u32::try_from(i).unwrap_or(u32::MAX));
        duals.push(Dual {
            value: 0,
            act: 0,
            least: row.least,
            reciprocal: reciprocal_of(terms),
            free: u32::try_from(terms.len()).unwrap_or(0),
        })?;
    }
    Ok(duals)
}

/// Moves the sums of a column's rows, and has the rows looked at.
fn push_acts(duals: &mut [Dual], due: &mut Marks, terms: Terms<'_>, step: i64) {
    for k in 0..terms.len() {
        if let Some((i, a)) = terms.get(k) {
            if let Some(dual) = duals.get_mut(i as usize) {
                dual.act = dual.act.wrapping_add(step.wrapping_mul(a));
                due.add(i);
            }
        }
    }
}

/// Moves what the multipliers say of a row's columns, and has these looked at. By how much the bound changes.
fn price_columns(columns: &mut [Column], due: &mut Marks, terms: Terms<'_>, step: i64) -> i64 {
    let mut change: i64 = 0;
    for k in 0..terms.len() {
        if let Some((j, a)) = terms.get(k) {
            if let Some(column) = columns.get_mut(j as usize) {
                let was = column.worth();
                column.pull = column.pull.wrapping_add(step.wrapping_mul(a));
                change = change.wrapping_add(column.worth().wrapping_sub(was));
                due.add(j);
            }
        }
    }
    change
}

/// What the rounds go by.
#[derive(Drop)]
struct Tables {
    matrix: Matrix,
    costs: Vec<u32>,
    columns: Vec<Column>,
    duals: Vec<Dual>,
    places: Places,
    divisor: u32,
}

/// What each column, and each row, was.
#[derive(Drop)]
struct Histories {
    columns: Vec<History>,
    duals: Vec<History>,
    column_pasts: Vec<ColumnPast>,
    dual_pasts: Vec<DualPast>,
}

/// Columns and multipliers at 0, unfixed.
fn tables_of(alloc: Global, z: &ZeroOne) -> Result<Tables, AllocError> {
    let divisor = z
        .costs
        .iter()
        .fold(0, |d, cost| divisor_of(d, *cost))
        .max(1);
    let matrix = Matrix::new(alloc, z)?;
    let costs = costs_of(alloc, z, divisor)?;
    let columns = columns_of(alloc, z, &matrix)?;
    let duals = duals_of(alloc, z, &matrix)?;
    let places = Places::new(alloc, z)?;
    Ok(Tables {
        matrix,
        costs,
        columns,
        duals,
        places,
        divisor,
    })
}

/// No column and no row was anything.
fn histories_of(alloc: Global, z: &ZeroOne) -> Result<Histories, AllocError> {
    let columns = vec![in alloc; History::none(); z.costs.len()]?;
    let duals = vec![in alloc; History::none(); z.rows.len()]?;
    let column_pasts = vec![in alloc; ColumnPast::none(); z.costs.len()]?;
    let dual_pasts = vec![in alloc; DualPast::none(); z.rows.len()]?;
    Ok(Histories {
        columns,
        duals,
        column_pasts,
        dual_pasts,
    })
}

/// Rounds that haven't begun.
fn assembled(
    alloc: Global,
    tables: Tables,
    pasts: Histories,
    due_columns: Due,
    due_duals: Due,
    weight: Weight,
) -> Rounds {
    Rounds {
        matrix: tables.matrix,
        costs: tables.costs,
        columns: tables.columns,
        duals: tables.duals,
        column_histories: pasts.columns,
        dual_histories: pasts.duals,
        column_pasts: pasts.column_pasts,
        dual_pasts: pasts.dual_pasts,
        due_columns,
        due_duals,
        places: tables.places,
        log: Log::new(alloc),
        window: Window::none(),
        divisor: tables.divisor,
        first_weight: weight,
        weight,
        noted_weight: weight,
        tolerance: 1,
        bound: 0,
        has_prices: true,
        work: 0,
        limit: u64::MAX,
        most: u64::MAX,
    }
}

impl Rounds {
    /// No multiplier yet, no column fixed.
    pub fn new(alloc: Global, z: &ZeroOne) -> Result<Rounds, AllocError> {
        let tables = tables_of(alloc, z)?;
        let pasts = histories_of(alloc, z)?;
        let due_columns = Due::new(alloc, z.costs.len())?;
        let due_duals = Due::new(alloc, z.rows.len())?;
        let weight = Weight::new(exponent_of(&tables.costs));
        let mut rounds = assembled(alloc, tables, pasts, due_columns, due_duals, weight);
        rounds.count_rows();
        rounds.restart(true);
        Ok(rounds)
    }

    /// So many columns, rows and terms were visited.
    pub fn spend(&mut self, count: usize) {
        self.work = self.work.saturating_add(count as u64);
    }

    /// How many columns, rows and terms were visited.
    pub fn work(&self) -> u64 {
        self.work
    }

    /// The rounds end when so many more were visited.
    pub fn limit_to(&mut self, work: u64) {
        self.limit = self.work.saturating_add(work).min(self.most);
    }

    /// From now on they end at the latest when so many more were visited.
    pub fn cap(&mut self, work: u64) {
        self.most = self.work.saturating_add(work);
        self.limit = self.limit.min(self.most);
    }

    /// How many may still be visited.
    pub fn left(&self) -> u64 {
        self.limit.saturating_sub(self.work)
    }

    /// Whether the limit is reached.
    pub fn is_spent(&self) -> bool {
        self.work >= self.limit
    }

    /// Whether the rounds stand still: nothing is to be looked at, or the limit is reached.
    pub fn is_still(&self) -> bool {
        self.is_quiet() || self.is_spent()
    }

    /// How many columns, rows and terms of rows that count there are.
    pub fn size(&self) -> usize {
        let both = self.columns.len().saturating_add(self.duals.len());
        both.saturating_add(self.matrix.len())
    }

    /// The greatest common divisor of the costs, or 1.
    pub fn divisor(&self) -> u32 {
        self.divisor
    }

    /// What the multipliers prove that every vector costs, in units of the divisor / `ONE`.
    pub fn bound(&self) -> i128 {
        self.bound
    }

    /// Whether columns have their costs, or 0.
    pub fn has_prices(&self) -> bool {
        self.has_prices
    }

    /// Leaves smaller moves of columns out. The limit until now.
    pub fn set_tolerance(&mut self, tolerance: i64) -> i64 {
        mem::replace(&mut self.tolerance, tolerance)
    }

    /// Has columns and multipliers move as they did at first. How they did until now.
    pub fn reset_weight(&mut self) -> Weight {
        mem::replace(&mut self.weight, self.first_weight)
    }

    /// Notes the weight halfway between the first one and this one.
    pub fn note_weight(&mut self) {
        let both = self
            .first_weight
            .exponent
            .wrapping_add(self.weight.exponent);
        self.noted_weight = Weight::new(quotient(both, 2));
    }

    /// Has columns and multipliers move by the weight that was noted.
    pub fn take_noted_weight(&mut self) {
        self.weight = self.noted_weight;
    }

    /// How columns move, against multipliers.
    pub fn set_weight(&mut self, weight: Weight) {
        self.weight = weight;
    }

    /// What a column costs, in units of the divisor.
    pub fn cost(&self, column: u32) -> i64 {
        match self.costs.get(column as usize) {
            Some(cost) => i64::from(*cost),
            None => 0,
        }
    }

    /// What the rounds say of a column.
    pub fn value(&self, column: u32) -> i64 {
        match self.columns.get(column as usize) {
            Some(column) => i64::from(column.value),
            None => 0,
        }
    }

    /// By how much a column costs more than the multipliers say of it.
    pub fn reduced_cost(&self, column: u32) -> i64 {
        match self.columns.get(column as usize) {
            Some(column) => column.over(),
            None => 0,
        }
    }

    /// By how much a column is neither 0 nor 1.
    pub fn fractionality(&self, column: u32) -> i64 {
        match self.columns.get(column as usize) {
            Some(column) => column.fractionality(),
            None => 0,
        }
    }

    /// The multiplier of a row.
    pub fn multiplier(&self, row: usize) -> i64 {
        match self.duals.get(row) {
            Some(dual) => dual.value,
            None => 0,
        }
    }

    /// How many rows there are.
    pub fn rows(&self) -> usize {
        self.duals.len()
    }

    /// The columns of a row, if it counts, each with its coefficient.
    pub fn row(&self, row: u32) -> Terms<'_> {
        self.matrix.rows.list(row)
    }

    /// The rows that count of a column, each with the coefficient there.
    pub fn column(&self, column: u32) -> Terms<'_> {
        self.matrix.columns.list(column)
    }

    /// Begins again at 0, with the costs or without.
    pub fn restart(&mut self, has_prices: bool) {
        self.has_prices = has_prices;
        for (column, cost) in self.columns.iter_mut().zip(&self.costs) {
            column.value = 0;
            column.price = if has_prices { *cost } else { 0 };
        }
        for dual in self.duals.iter_mut() {
            dual.value = 0;
        }
        self.weight = self.first_weight;
        self.remake()
    }

    /// Adds up the sums of a row and of its columns anew.
    fn remake_row(&mut self, i: u32) {
        let Some(dual) = self.duals.get_mut(i as usize) else {
            return;
        };
        let terms = self.matrix.rows.list(i);
        let mut act: i64 = 0;
        for k in 0..terms.len() {
            if let Some((j, a)) = terms.get(k) {
                if let Some(column) = self.columns.get_mut(j as usize) {
                    act = act.wrapping_add(i64::from(column.ahead).wrapping_mul(a));
                    column.pull = column.pull.wrapping_add(dual.value.wrapping_mul(a));
                }
            }
        }
        dual.act = act;
        let least = i128::from(dual.value).wrapping_mul(i128::from(dual.least));
        self.bound = self.bound.wrapping_add(least);
    }

    /// Adds up all sums anew, and has everything looked at.
    pub fn remake(&mut self) {
        self.log.forget();
        self.bound = 0;
        for column in self.columns.iter_mut() {
            column.settle();
        }
        for i in 0..self.duals.len() {
            if self.matrix.is_counted(i) {
                self.remake_row(u32::try_from(i).unwrap_or(u32::MAX));
            }
        }
        for column in &self.columns {
            self.bound = self.bound.wrapping_add(i128::from(column.worth()));
        }
        self.wake_all();
        let size = self.size();
        self.spend(size);
    }

    /// Has all columns and rows looked at.
    fn wake_all(&mut self) {
        for j in 0..self.columns.len() {
            self.mark(u32::try_from(j).unwrap_or(u32::MAX));
        }
        for i in 0..self.duals.len() {
            if self.matrix.is_counted(i) {
                self.wake(u32::try_from(i).unwrap_or(u32::MAX));
            }
        }
    }

    /// Has a column looked at.
    pub fn mark(&mut self, column: u32) {
        self.due_columns.now.add(column)
    }

    /// Has a row looked at.
    pub fn wake(&mut self, row: u32) {
        self.due_duals.now.add(row)
    }

    /// Whether nothing is to be looked at.
    pub fn is_quiet(&self) -> bool {
        self.due_columns.now.is_empty() && self.due_duals.now.is_empty()
    }

    /// Has the rows of a column follow where it is going.
    fn push(&mut self, column: u32, step: i64) {
        if step != 0 {
            let terms = self.matrix.columns.list(column);
            push_acts(&mut self.duals, &mut self.due_duals.now, terms, step);
            self.work = self.work.saturating_add(terms.len() as u64);
        }
    }

    /// Puts a column at a value, where it also stays.
    pub(crate) fn set_value(&mut self, column: u32, value: i32) {
        let Some(it) = self.columns.get_mut(column as usize) else {
            return;
        };
        let was = it.value;
        let step = i64::from(value).wrapping_sub(i64::from(it.ahead));
        it.value = value;
        it.ahead = value;
        self.push(column, step);
        if was != value {
            self.note_column(column, was);
        }
    }

    /// Has the columns of a row follow its multiplier, in the next round, or in this one where it is still to come.
    fn price(&mut self, row: u32, least: i32, step: i64, is_next: bool) {
        let terms = self.matrix.rows.list(row);
        let change = if is_next {
            price_columns(&mut self.columns, &mut self.due_columns.next, terms, step)
        } else {
            price_columns(&mut self.columns, &mut self.due_columns.now, terms, step)
        };
        let least = i128::from(step).wrapping_mul(i128::from(least));
        let change = least.wrapping_add(i128::from(change));
        self.bound = self.bound.wrapping_add(change);
        self.work = self.work.saturating_add(terms.len() as u64);
    }

    /// Moves a multiplier; its columns are looked at in the round that is still to come.
    pub(crate) fn set_dual(&mut self, row: u32, value: i64) {
        let Some(it) = self.duals.get_mut(row as usize) else {
            return;
        };
        let (was, least) = (it.value, it.least);
        if was != value {
            it.value = value;
            self.note_dual(row, was);
            self.price(row, least, value.wrapping_sub(was), false)
        }
    }

    /// Moves a column that is due, by what the multipliers say of it.
    fn step_column(&mut self, column: u32, pace: Pace) {
        let Some(it) = self.columns.get_mut(column as usize) else {
            return;
        };
        let moved = it.go(pace);
        if moved.was.is_some() || moved.step != 0 {
            self.due_columns.next.add(column);
        }
        self.push(column, moved.step);
        if let Some(was) = moved.was {
            self.note_column(column, was)
        }
    }

    /// Moves the multiplier of a row that is due, by what the row lacks.
    fn step_dual(&mut self, row: u32, pace: Pace) {
        let Some(it) = self.duals.get_mut(row as usize) else {
            return;
        };
        let (was, least) = (it.value, it.least);
        let value = it.next(pace);
        it.value = value;
        if value != was {
            self.due_duals.next.add(row);
            self.note_dual(row, was);
            self.price(row, least, value.wrapping_sub(was), true)
        }
    }

    /// Moves all columns that are due.
    fn step_columns(&mut self) {
        let pace = Pace {
            factor: self.weight.down,
            shift: self.weight.column_shift(),
            tolerance: self.tolerance,
        };
        let count = self.due_columns.take_now();
        for k in 0..count {
            let column = self.due_columns.taken(k);
            self.step_column(column, pace);
        }
        self.spend(count)
    }

    /// Moves all multipliers that are due.
    fn step_duals(&mut self) {
        let pace = Pace {
            factor: self.weight.up,
            shift: self.weight.dual_shift(),
            tolerance: self.tolerance.wrapping_mul(self.first_weight.up),
        };
        let count = self.due_duals.take_now();
        for k in 0..count {
            let row = self.due_duals.taken(k);
            self.step_dual(row, pace);
        }
        self.spend(count)
    }

    /// One move of all columns that are due, then of all multipliers.
    pub fn round(&mut self) {
        self.window.tick();
        self.step_columns();
        self.step_duals();
        self.due_columns.turn();
        self.due_duals.turn()
    }

    /// So many rounds more; fewer where nothing moves any more.
    pub fn run(&mut self, rounds: u32) {
        for _ in 0..rounds {
            if self.is_still() {
                return;
            }
            self.round();
        }
    }
}
