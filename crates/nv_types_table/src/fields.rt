//! Lists of named types, or of named forms, by number. A list is kept as one tree, whose form depends on how many
//! fields it has alone, so that equal lists have equal numbers, and lists that begin alike mostly share their parts.
//! A tree is as high as the logarithm of the number of its fields, so what goes down a tree calls itself.

ghost use Rattle.std.specs.Prelude.{◌≡◌, ◌<◌, ◌≤◌, ◌==◌, ◌++◌, ◌∷◌, [], ℕ, All, IfSome, is_some, false, length, List, Some, None, IfOk, OnOk, slice_get};
ghost use Rattle.nv_ast.specs.Tests.{has_twice};
ghost use Rattle.nv_ast.specs.Types.{NamedTys, Forms, ◌+++◌};
ghost use Rattle.nv_types_table.specs.inner.Rows.{Row, one, both, leaves, depth, ends_as_deep, carried, hung, grown};
ghost use Rattle.nv_types_table.specs.inner.Store.{Extends, IsStore, Stands, IsRow, IsFields, IsForms, halves_of, AreFields, AreForms, AreNames, AreNamed, AreSeen, form_names, field_names, fields_then};
ghost use Rattle.nv_types_table.specs.inner.Lists.{AreOnes, AreStacked, ArePut};
ghost use Rattle.nv_types_table.specs.inner.Named.{named};

use crate::table::{Cell, NO_FIELDS, Table};
use indexmap::IndexSet;
use nv_ast::Name;
use nv_base::NoMemory;
use std::alloc::Global;

impl<'a> Table<'a> {
    /// The list of some named types.
    pub fn fields_of(
        &mut self,
        alloc: Global,
        types: &[(&'a Name, usize)],
    ) -> Result<usize, NoMemory>
        ensures made { (ts : NamedTys) → AreFields self.old (named types.now) ts → IfOk result (λ i. IsFields self.new i ts) }
        ensures forms { (fs : Forms) → AreForms self.old (named types.now) fs → IfOk result (λ i. IsForms self.new i fs) }
        ensures grows { OnOk result (Extends self.old self.new) }
    {
        let lists = self.single_fields(alloc, types)?;
        self.row(alloc, &lists)
    }

    /// The forms and the types of two lists, each of the first before those of the second. Where the forms of both are
    /// their types, as those of bits are, so are the joined ones.
    pub fn both_joined(
        &mut self,
        alloc: Global,
        first: (usize, usize),
        second: (usize, usize),
    ) -> Result<(usize, usize), NoMemory>
        ensures of_forms { (fs gs : Forms) → IsForms self.old first.0 fs → IsForms self.old second.0 gs → IfOk result (λ r. IsForms self.new r.0 (fs +++ gs)) }
        ensures of_types { (ts us : NamedTys) → IsFields self.old first.1 ts → IsFields self.old second.1 us → IfOk result (λ r. IsFields self.new r.1 (fields_then ts us)) }
        ensures grows { OnOk result (Extends self.old self.new) }
    {
        let forms = self.joined(alloc, first.0, second.0)?;
        if first.0 == first.1 && second.0 == second.1 {
            return Ok((forms, forms));
        }
        let types = self.joined(alloc, first.1, second.1)?;
        Ok((forms, types))
    }

    // The fields of one list and then those of another.
    fn joined(&mut self, alloc: Global, first: usize, second: usize) -> Result<usize, NoMemory>
        ensures of_fields { (ts us : NamedTys) → IsFields self.old first ts → IsFields self.old second us → IfOk result (λ i. IsFields self.new i (fields_then ts us)) }
        ensures of_forms { (fs gs : Forms) → IsForms self.old first fs → IsForms self.old second gs → IfOk result (λ i. IsForms self.new i (fs +++ gs)) }
        ensures grows { OnOk result (Extends self.old self.new) }
    {
        if self.is_empty(first) {
            return Ok(second);
        }
        let behind = self.leaves_of(alloc, second)?;
        let (rows, last) = self.edge(alloc, first)?;
        self.extended(rows, last, &behind)
    }

    /// Whether a list of named types, or forms, has none.
    pub fn is_empty(&self, fields: usize) -> bool
        ensures cells { (ps : List (ℕ × ℕ)) → IsRow self.now fields ps → result ≡ (length ps == 0) }
        ensures forms { (fs : Forms) → IsForms self.now fields fs → result ≡ (length (form_names fs) == 0) }
        ensures store { IsStore self.now }
    {
        matches!(self.cell(fields), Some(Cell::NoFields))
    }

    /// Whether two fields of a list have one name.
    pub fn repeats_a_name(&self, alloc: Global, fields: usize) -> Result<bool, NoMemory>
        ensures of_fields { (ts : NamedTys) → IsFields self.now fields ts → IfOk result (λ b. b ≡ has_twice (field_names ts)) }
        ensures of_forms { (fs : Forms) → IsForms self.now fields fs → IfOk result (λ b. b ≡ has_twice (form_names fs)) }
    {
        self.meets_a_name(&mut IndexSet::new(alloc), fields)
    }

    /// Adds the names of a list of fields to those that were seen, up to the first that was among them.
    pub fn meets_a_name(&self, seen: &mut IndexSet<usize>, fields: usize) -> Result<bool, NoMemory>
        ensures meets { (xs names : List (List ℕ)) → AreSeen self.now seen.old.keys xs → AreNamed self.now fields names → IfOk result (λ b. b ≡ has_twice (xs ++ names)) }
        ensures seen { (xs names : List (List ℕ)) → AreSeen self.now seen.old.keys xs → AreNamed self.now fields names → IfOk result (λ b. b ≡ false → AreSeen self.now seen.new.keys (xs ++ names)) }
    {
        if self.is_empty(fields) {
            return Ok(false);
        }
        self.meets_in(seen, fields)
    }

    // The same of a tree of fields.
    fn meets_in(&self, seen: &mut IndexSet<usize>, list: usize) -> Result<bool, NoMemory>
        ensures meets { (t : Row) (xs names : List (List ℕ)) → AreSeen self.now seen.old.keys xs → Stands self.now list t → AreNames self.now (leaves t) names → IfOk result (λ b. b ≡ has_twice (xs ++ names)) }
        ensures seen { (t : Row) (xs names : List (List ℕ)) → AreSeen self.now seen.old.keys xs → Stands self.now list t → AreNames self.now (leaves t) names → IfOk result (λ b. b ≡ false → AreSeen self.now seen.new.keys (xs ++ names)) }
    {
        match self.cell(list) {
            Some(Cell::Field(name, _)) => Ok(!seen.insert(name)?),
            Some(Cell::Both(left, right)) => {
                if self.meets_in(seen, left)? {
                    return Ok(true);
                }
                self.meets_in(seen, right)
            }
            _ => Ok(false),
        }
    }

    /// The fields of a list, in order: the numbers of their names and of their types or forms.
    pub fn fields_in(&self, alloc: Global, fields: usize) -> Result<Vec<(usize, usize)>, NoMemory>
        ensures cells { (ps : List (ℕ × ℕ)) → IsRow self.now fields ps → IfOk result (λ v. v.items ≡ ps) }
        ensures store { IsStore self.now }
        ensures below { IfOk result (λ v. All (λ p. p.1 < fields) v.items) }
    {
        let mut found = Vec::new(alloc);
        if self.is_empty(fields) {
            return Ok(found);
        }
        self.add_fields(&mut found, fields)?;
        Ok(found)
    }

    // Adds the fields of a tree.
    fn add_fields(&self, found: &mut Vec<(usize, usize)>, list: usize) -> Result<(), NoMemory>
        ensures cells { (t : Row) → Stands self.now list t → OnOk result (found.new.items ≡ found.old.items ++ leaves t) }
        ensures below { (n : ℕ) → list ≤ n → All (λ p. p.1 < n) found.old.items → OnOk result (All (λ p. p.1 < n) found.new.items) }
    {
        match self.cell(list) {
            Some(Cell::Field(name, t)) => {
                found.push((name, t))?;
                Ok(())
            }
            Some(Cell::Both(left, right)) => {
                self.add_fields(found, left)?;
                self.add_fields(found, right)
            }
            _ => Ok(()),
        }
    }

    // The lists of one field each of which a list is made, in order.
    fn leaves_of(&self, alloc: Global, list: usize) -> Result<Vec<usize>, NoMemory>
        ensures { (ps : List (ℕ × ℕ)) → IsRow self.now list ps → IfOk result (λ v. AreOnes self.now v.items ps) }
    {
        let mut found = Vec::new(alloc);
        if self.is_empty(list) {
            return Ok(found);
        }
        self.add_leaves(&mut found, list)?;
        Ok(found)
    }

    // Adds the lists of one field each of which a tree is made.
    fn add_leaves(&self, found: &mut Vec<usize>, list: usize) -> Result<(), NoMemory>
        ensures { (t : Row) → Stands self.now list t → OnOk result ((more : List ℕ) × (found.new.items ≡ found.old.items ++ more) × AreOnes self.now more (leaves t)) }
    {
        match self.cell(list) {
            Some(Cell::Field(_, _)) => {
                found.push(list)?;
                Ok(())
            }
            Some(Cell::Both(left, right)) => {
                self.add_leaves(found, left)?;
                self.add_leaves(found, right)
            }
            _ => Ok(()),
        }
    }

    // The lists of one field of some named types.
    fn single_fields(
        &mut self,
        alloc: Global,
        types: &[(&'a Name, usize)],
    ) -> Result<Vec<usize>, NoMemory>
        ensures put { IfOk result (λ v. ArePut self.old self.new (named types.now) v.items) }
        ensures grows { OnOk result (Extends self.old self.new) }
    {
        let mut lists = Vec::new(alloc);
        for entry in types {
            let name = self.name_number(entry.0)?;
            let t = self.part_number(entry.1);
            lists.push(self.number(Cell::Field(name, t))?)?;
        }
        Ok(lists)
    }

    // The list of the fields of some lists of one field.
    fn row(&mut self, alloc: Global, lists: &[usize]) -> Result<usize, NoMemory>
        ensures row { (ps : List (ℕ × ℕ)) → AreOnes self.old lists.now ps → IfOk result (λ i. IsRow self.new i ps) }
        ensures grows { OnOk result (Extends self.old self.new) }
    {
        match lists.split_first() {
            Some((first, behind)) => self.extended(Vec::new(alloc), *first, behind),
            None => Ok(NO_FIELDS),
        }
    }

    // The list of the fields of some rows, of a last one, and of more lists of one field after it.
    fn extended(
        &mut self,
        rows: Vec<usize>,
        last: usize,
        behind: &[usize],
    ) -> Result<usize, NoMemory>
        ensures extended { (ts : List Row) (p : ℕ × ℕ) (ps : List (ℕ × ℕ)) → AreStacked self.old rows.items ts → Stands self.old last (one p) → AreOnes self.old behind.now ps → IfOk result (λ i. Stands self.new i (grown ts p ps)) }
        ensures grows { OnOk result (Extends self.old self.new) }
    {
        let mut rows = rows;
        let mut last = last;
        for next in behind {
            self.carry(&mut rows, last)?;
            last = *next;
        }
        self.hung(rows, last)
    }

    // Puts a row after some others, where two of one depth become one.
    fn carry(&mut self, rows: &mut Vec<usize>, row: usize) -> Result<(), NoMemory>
        ensures carried { (ts : List Row) (t : Row) → AreStacked self.old rows.old.items ts → Stands self.old row t → OnOk result (AreStacked self.new rows.new.items (carried ts t)) }
        ensures grows { OnOk result (Extends self.old self.new) }
    {
        let mut row = row;
        while let Some(before) = self.twin(rows, row) {
            rows.pop();
            row = self.both(before, row)?;
        }
        rows.push(row)?;
        Ok(())
    }

    // The last of some rows, if it is as deep as another.
    fn twin(&self, rows: &[usize], row: usize) -> Option<usize>
        ensures twin { (ts : List Row) (t : Row) → AreStacked self.now rows.now ts → Stands self.now row t → is_some result ≡ ends_as_deep ts t }
        ensures last { IfSome result (λ i. (front : List ℕ) × (rows.now ≡ front ++ i ∷ [])) }
    {
        match rows.last() {
            Some(before) => {
                if self.is_as_deep(*before, row) {
                    Some(*before)
                } else {
                    None
                }
            }
            None => None,
        }
    }

    // One row of some and of a last one.
    fn hung(&mut self, rows: Vec<usize>, last: usize) -> Result<usize, NoMemory>
        ensures hung { (ts : List Row) (t : Row) → AreStacked self.old rows.items ts → Stands self.old last t → IfOk result (λ i. Stands self.new i (hung ts t)) }
        ensures grows { OnOk result (Extends self.old self.new) }
    {
        let mut rows = rows;
        let mut row = last;
        while let Some(before) = rows.pop() {
            row = self.both(before, row)?;
        }
        Ok(row)
    }

    // The rows along the right edge of a list, and its last field.
    fn edge(&self, alloc: Global, list: usize) -> Result<(Vec<usize>, usize), NoMemory>
        ensures { (ts : List Row) (p : ℕ × ℕ) → Stands self.now list (hung ts (one p)) → IfOk result (λ r. AreStacked self.now r.0.items ts × Stands self.now r.1 (one p)) }
    {
        let mut rows = Vec::new(alloc);
        let mut last = list;
        while let Some((left, right)) = self.halves(last) {
            rows.push(left)?;
            last = right;
        }
        Ok((rows, last))
    }

    // Whether two rows are of the same depth, as it is counted on their left edges.
    fn is_as_deep(&self, a: usize, b: usize) -> bool
        ensures { (t u : Row) → Stands self.now a t → Stands self.now b u → result ≡ (depth t == depth u) }
    {
        let mut a = a;
        let mut b = b;
        while let Some((x, _)) = self.halves(a) {
            let Some((y, _)) = self.halves(b) else {
                return false;
            };
            a = x;
            b = y;
        }
        self.halves(b).is_none()
    }

    // The two lists of which a list is made, if it has two fields at least.
    fn halves(&self, list: usize) -> Option<(usize, usize)>
        ensures value { result ≡ halves_of (slice_get self.now.cells list) }
        ensures below { IfSome result (λ p. (p.0 < list) × (p.1 < list)) }
    {
        match self.cell(list) {
            Some(Cell::Both(left, right)) => Some((left, right)),
            _ => None,
        }
    }

    // Both of two lists, the one before the other.
    fn both(&mut self, left: usize, right: usize) -> Result<usize, NoMemory>
        ensures made { (t u : Row) → Stands self.old left t → Stands self.old right u → IfOk result (λ i. Stands self.new i (both t u)) }
        ensures grows { OnOk result (Extends self.old self.new) }
    {
        let left = self.part_number(left);
        let right = self.part_number(right);
        self.number(Cell::Both(left, right))
    }
}
