//! Values by the rows in which they are held.

use nv_base::NoMemory;
use std::alloc::Global;
use std::collections::HashMap;

/// Values in the order in which they first stand in a row, each with its place in that order. Of each those that can't
/// have its number: they stand in the row in which it is first, or it stands in the row in which they are.
#[derive(Drop)]
pub struct Values {
    vars: Vec<u32>,
    places: HashMap<u32, usize>,
    beside: Vec<Vec<usize>>,
}

impl Values {
    /// The place of a value, if it stands in a row.
    pub fn place(&self, x: u32) -> Option<usize> {
        self.places.get(&x).copied()
    }

    /// The value at a place.
    pub fn var(&self, i: usize) -> Option<u32> {
        self.vars.get(i).copied()
    }

    /// How many values there are.
    pub fn len(&self) -> usize {
        self.beside.len()
    }

    /// The places of the values that can't have the number of the value at a place.
    pub fn beside(&self, i: usize) -> &[usize] {
        match self.beside.get(i) {
            Some(places) => places,
            None => &[],
        }
    }

    /// The value at one place can't have the number of that at another.
    fn keep_from(&mut self, i: usize, j: usize) -> Result<(), NoMemory> {
        if let Some(places) = self.beside.get_mut(i) {
            places.push(j)?;
        }
        Ok(())
    }

    /// A value after the others, which can't have the numbers of those at these places.
    fn add(&mut self, alloc: Global, x: u32, there: &[usize]) -> Result<usize, NoMemory> {
        let i = self.beside.len();
        self.vars.push(x)?;
        self.places.insert(x, i)?;
        self.beside.push(there.to_vec(alloc)?)?;
        for j in there {
            self.keep_from(*j, i)?;
        }
        Ok(i)
    }

    /// The places of those values of a row that have one.
    fn places_in(&self, alloc: Global, row: &[u32]) -> Result<Vec<usize>, NoMemory> {
        let mut there = Vec::new(alloc);
        for x in row {
            if let Some(i) = self.place(*x) {
                there.push(i)?;
            }
        }
        Ok(there)
    }

    /// The values of a row that have no place yet.
    fn add_row(&mut self, alloc: Global, row: &[u32]) -> Result<(), NoMemory> {
        let mut there = self.places_in(alloc, row)?;
        if there.len() == row.len() {
            return Ok(());
        }
        for x in row {
            if self.place(*x).is_none() {
                let i = self.add(alloc, *x, &there)?;
                there.push(i)?;
            }
        }
        Ok(())
    }
}

/// The values of these rows.
pub fn values_of(alloc: Global, rows: &[Vec<u32>]) -> Result<Values, NoMemory> {
    let mut values = Values {
        vars: Vec::new(alloc),
        places: HashMap::new(alloc),
        beside: Vec::new(alloc),
    };
    for row in rows {
        values.add_row(alloc, row)?;
    }
    Ok(values)
}
