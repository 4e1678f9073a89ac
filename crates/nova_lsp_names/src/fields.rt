//! Which field of which layout a name is.

use crate::kind::{Occurrence, Role};
use crate::mark::Mark;
use crate::names::Names;
use std::alloc::Global;

// The most layouts in which a field is looked for.
const MOST_OWNERS: u32 = 64;

impl Names {
    /// Gives the occurrences of fields their definitions.
    pub fn link_fields(&mut self, alloc: Global) {
        for n in 0..self.occurrences.len() {
            if let Some(it) = self.occurrences.get(n).copied() {
                self.link_field(alloc, n, it)
            }
        }
    }

    fn link_field(&mut self, alloc: Global, n: usize, it: Occurrence) {
        if it.role != Role::Field || it.definition.is_some() {
            return;
        }
        let Some(owner) = self.owner_of(it) else {
            return;
        };
        let field = self.field_of(alloc, owner, it.token);
        if let Some(it) = self.occurrences.get_mut(n) {
            it.definition = field;
        }
    }

    /// What a token is.
    pub fn mark(&self, token: usize) -> Mark {
        match self.tokens.get(token) {
            Some(it) => Mark::of(&it.sort),
            None => Mark::Other,
        }
    }

    // What the token that is so many before one is.
    fn mark_before(&self, token: usize, back: usize) -> Mark {
        match token.checked_sub(back) {
            Some(n) => self.mark(n),
            None => Mark::Other,
        }
    }

    // The layout or the field that has the field of an occurrence.
    fn owner_of(&self, it: Occurrence) -> Option<usize> {
        if self.mark(it.base) == Mark::OpenCurly {
            return self.owner_of_record(it.base);
        }
        self.owner_of_value(it.base)
    }

    /// The layout or the field whose fields a value has that ends with a token.
    pub fn owner_of_value(&self, last: usize) -> Option<usize> {
        match self.mark(last) {
            Mark::Word => self.owner_of_name(last),
            Mark::CloseRound => self.owner_of_unpacked(self.partner(last)),
            Mark::CloseSquare => self.owner_of_result(self.partner(last)),
            _ => None,
        }
    }

    fn partner(&self, token: usize) -> usize {
        match self.partners.get(token) {
            Some(it) => *it,
            None => token,
        }
    }

    fn owner_of_name(&self, token: usize) -> Option<usize> {
        let it = self.at(token)?;
        let n = it.definition?;
        if it.role == Role::Field {
            return Some(n);
        }
        match self.definition(n)?.shape {
            Some(shape) => self.layout_at(shape),
            None => Some(n),
        }
    }

    // The layout that a token names, or that of the result of the function that it names.
    fn layout_at(&self, token: usize) -> Option<usize> {
        let it = self.at(token)?;
        let n = it.definition?;
        if it.role == Role::Layout {
            return Some(n);
        }
        match self.definition(n)?.shape {
            Some(shape) => self.layout_named(shape),
            None => Some(n),
        }
    }

    // The layout that a token names.
    fn layout_named(&self, token: usize) -> Option<usize> {
        let it = self.at(token)?;
        if it.role != Role::Layout {
            return None;
        }
        it.definition
    }

    // That of `unpack[L](..)`, by its round bracket.
    fn owner_of_unpacked(&self, open: usize) -> Option<usize> {
        if self.mark_before(open, 4) == Mark::Unpack {
            return self.layout_named(open.checked_sub(2)?);
        }
        None
    }

    // That of the result of a call, by its bracket.
    fn owner_of_result(&self, open: usize) -> Option<usize> {
        let name = open.checked_sub(1)?;
        let it = self.at(name)?;
        if it.role != Role::Function {
            return None;
        }
        self.layout_at(name)
    }

    // That of a record, by its bracket: the record of `pack[L]({ .. })`, or that of a field of such a one.
    fn owner_of_record(&self, open: usize) -> Option<usize> {
        if self.mark_before(open, 1) == Mark::Equals {
            let it = self.at(open.checked_sub(2)?)?;
            if it.role == Role::Field {
                return it.definition;
            }
            return None;
        }
        if self.mark_before(open, 5) == Mark::Pack {
            return self.layout_named(open.checked_sub(3)?);
        }
        None
    }

    // The field with the name of a token, of a layout or a field.
    fn field_of(&self, alloc: Global, owner: usize, token: usize) -> Option<usize> {
        let mut owners = Vec::new(alloc);
        let _ = owners.push(owner);
        for _ in 0..MOST_OWNERS {
            let it = owners.pop()?;
            let found = self.field_in(it, token, &mut owners);
            if found.is_some() {
                return found;
            }
        }
        None
    }

    // The same of one owner alone; the layouts that are joined there are added to the owners.
    fn field_in(&self, owner: usize, token: usize, owners: &mut Vec<usize>) -> Option<usize> {
        let name = self.spelling(token);
        for n in owner.saturating_add(1)..self.definitions.len() {
            let it = self.definition(n)?;
            if it.role.ends_fields() {
                return None;
            }
            if it.owner != Some(owner) {
                continue;
            }
            if it.role == Role::Joined {
                self.add_joined(it.token, owners)
            } else if self.spelling(it.token) == name {
                return Some(n);
            }
        }
        None
    }

    fn add_joined(&self, token: usize, owners: &mut Vec<usize>) {
        if let Some(layout) = self.layout_named(token) {
            let _ = owners.push(layout);
        }
    }

    /// Appends the fields of a layout or a field, those of joined layouts with them.
    pub fn push_fields(&self, alloc: Global, owner: usize, fields: &mut Vec<usize>) {
        let mut owners = Vec::new(alloc);
        let _ = owners.push(owner);
        for _ in 0..MOST_OWNERS {
            let Some(it) = owners.pop() else {
                return;
            };
            self.push_fields_in(it, fields, &mut owners)
        }
    }

    fn push_fields_in(&self, owner: usize, fields: &mut Vec<usize>, owners: &mut Vec<usize>) {
        for n in owner.saturating_add(1)..self.definitions.len() {
            let Some(it) = self.definition(n) else {
                return;
            };
            if it.role.ends_fields() {
                return;
            }
            if it.owner != Some(owner) {
                continue;
            }
            if it.role == Role::Joined {
                self.add_joined(it.token, owners)
            } else {
                let _ = fields.push(n);
            }
        }
    }
}
