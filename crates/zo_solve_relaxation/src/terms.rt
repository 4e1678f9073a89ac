//! Lists of terms, one behind the other, four bytes a term.
//!
//! A term is a column of a row, or a row of a column, with the sign of its coefficient in the lowest bit. The sizes of the
//! coefficients stand beside the terms where one isn't 1.

use std::alloc::{AllocError, Global};

/// The terms of a row, or of a column.
#[derive(Clone, Copy)]
pub struct Terms<'a> {
    terms: &'a [u32],
    sizes: &'a [u16],
}

impl<'a> Terms<'a> {
    /// No term.
    pub fn none() -> Terms<'a> {
        Terms {
            terms: &[],
            sizes: &[],
        }
    }

    /// How many there are.
    pub fn len(&self) -> usize {
        self.terms.len()
    }

    /// How many of them are less than this one, where they rise.
    pub fn count_before(&self, index: usize) -> usize {
        self.terms
            .partition_point(|term| ((*term >> 1) as usize) < index)
    }

    /// A column, or a row, and the coefficient.
    pub fn get(&self, at: usize) -> Option<(u32, i64)> {
        match self.terms.get(at) {
            Some(term) => Some((*term >> 1, signed(*term, self.sizes.get(at)))),
            None => None,
        }
    }
}

/// The coefficient of a term.
fn signed(term: u32, size: Option<&u16>) -> i64 {
    let size = match size {
        Some(size) => i64::from(*size),
        None => 1,
    };
    if term & 1 == 0 {
        size
    } else {
        size.wrapping_neg()
    }
}

/// A term in four bytes.
fn packed(index: u32, a: i32) -> u32 {
    let sign = if a < 0 { 1 } else { 0 };
    index.wrapping_mul(2).wrapping_add(sign)
}

/// The size of a coefficient.
fn size_of(a: i32) -> u16 {
    u16::try_from(a.wrapping_abs()).unwrap_or(u16::MAX)
}

/// Lists of terms: list i is `terms[starts[i]..starts[i + 1]]`.
#[derive(Drop)]
pub struct Lists {
    starts: Vec<u32>,
    terms: Vec<u32>,
    // none where each is 1
    sizes: Vec<u16>,
}

impl Lists {
    /// Lists with room for terms where these starts have it, all 0.
    pub fn with_starts(
        alloc: Global,
        starts: Vec<u32>,
        has_sizes: bool,
    ) -> Result<Lists, AllocError> {
        let count = starts.last().copied().unwrap_or(0) as usize;
        let sizes = if has_sizes { count } else { 0 };
        Ok(Lists {
            starts,
            terms: vec![in alloc; 0; count]?,
            sizes: vec![in alloc; 0; sizes]?,
        })
    }

    /// Puts a term at a place.
    pub fn set(&mut self, at: usize, index: u32, a: i32) {
        if let Some(term) = self.terms.get_mut(at) {
            *term = packed(index, a);
        }
        if let Some(size) = self.sizes.get_mut(at) {
            *size = size_of(a);
        }
    }

    /// Where a list begins.
    pub fn start(&self, list: usize) -> usize {
        self.starts.get(list).copied().unwrap_or(0) as usize
    }

    /// The terms of a list.
    pub fn list(&self, list: u32) -> Terms<'_> {
        let from = self.start(list as usize);
        let to = self.start((list as usize).wrapping_add(1));
        let Some(terms) = self.terms.get(from..to) else {
            return Terms::none();
        };
        Terms {
            terms,
            sizes: self.sizes.get(from..to).unwrap_or(&[]),
        }
    }

    /// How many terms there are.
    pub fn len(&self) -> usize {
        self.terms.len()
    }

    /// Whether each coefficient is 1 or -1.
    pub fn is_unit(&self) -> bool {
        self.sizes.is_empty()
    }
}
