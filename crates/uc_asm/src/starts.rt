//! The labels at the starts of an object, and its listing.
ghost use Rattle.std.specs.Prelude.{◌≡◌, ◌<◌, ◌≤◌, ◌^◌, ◌++◌, ◌∷◌, [], All, length, map, IfOk, OnOk};
ghost use Rattle.nv_lines.specs.Line.{text_of};
ghost use Rattle.uc_isa.specs.Lawful.{IsLawful};
ghost use Rattle.uc_object.specs.Object.{code_of};
ghost use Rattle.uc_asm.specs.Items.{item_line};
ghost use Rattle.uc_asm.specs.Labels.{IsCodeOf};
ghost use Rattle.uc_asm.specs.Starts.{start_label, object_listing, tagged_listing};
ghost use Rattle.uc_asm.specs.inner.Numbered.{AreNumbered};

use crate::listing::{print, push_instruction, push_params};
use nv_base::NoMemory;
use nv_lines::push_decimal;
use smallvec::SmallVec;
use std::alloc::{AllocError, Global};
use std::marker::Model;
use uc_object::{Object, Tagged};

/// Numbers of labels, of which up to two take no memory of their own. Contracts see it as their list.
#[derive(Drop)]
struct Numbers {
    list: SmallVec<u32, 2, Global>,
}

impl Model for Numbers {
    ghost use Rattle.std.specs.Prelude.{List, ℕ};

    ghost Value = { List ℕ };

    ghost view = { λ n. n.list.items };
}

impl Numbers {
    fn new(alloc: Global) -> Numbers
        ensures { result ≡ [] }
    {
        Numbers {
            list: SmallVec::new(alloc),
        }
    }

    fn add(&mut self, number: u32) -> Result<(), AllocError>
        ensures { OnOk result (self.new ≡ self.old ++ number ∷ []) }
    {
        self.list.push(number)?;
        Ok(())
    }

    fn list(&self) -> &[u32]
        ensures { result.now ≡ self.now }
    {
        self.list.as_slice()
    }
}

/// The text of an object's code. Each target is written as a place; before the instruction at each start of version 2
/// stands a line with the label of its number.
pub fn print_object(alloc: Global, o: &Object) -> Result<Vec<u8>, NoMemory>
    ensures listing { IfOk result (λ bytes. bytes.items ≡ object_listing o.now) }
    ensures text { IfOk result (λ bytes. IsLawful (code_of o.now).list → IsCodeOf bytes.items (code_of o.now)) }
{
    match o {
        Object::One(code) => print(alloc, code),
        Object::Two(tagged) => print_tagged(alloc, tagged),
    }
}

fn print_tagged(alloc: Global, tagged: &Tagged) -> Result<Vec<u8>, NoMemory>
    ensures listing { IfOk result (λ bytes. bytes.items ≡ tagged_listing tagged.now) }
    ensures text { IfOk result (λ bytes. IsLawful tagged.now.code.list → IsCodeOf bytes.items tagged.now.code) }
{
    let code = tagged.code();
    let list = code.list();
    let numbers = numbers_at(alloc, list.len(), tagged.starts())?;
    let mut out = Vec::new(alloc);
    push_params(&mut out, code.params())?;
    for (place, i) in list.iter().enumerate() {
        push_labels(&mut out, numbers[place].list())?;
        push_instruction(&mut out, *i)?;
    }
    Ok(out)
}

// A line for each of these labels.
fn push_labels(out: &mut Vec<u8>, numbers: &[u32]) -> Result<(), AllocError>
    ensures { OnOk result (out.new.items ≡ out.old.items ++ text_of (map item_line (map start_label numbers.now))) }
{
    for number in numbers {
        out.push(b'L')?;
        push_decimal(out, u64::from(*number))?;
        out.extend_from_slice(b":\n")?;
    }
    Ok(())
}

// The numbers of the starts at each place.
fn numbers_at(alloc: Global, places: usize, starts: &[u32]) -> Result<Vec<Numbers>, AllocError>
    requires inside { All (λ start. start < places) starts.now }
    requires few { length starts.now ≤ 2 ^ 20 }
    ensures { IfOk result (λ numbers. AreNumbered places starts.now numbers.items) }
{
    let mut numbers = no_numbers(alloc, places)?;
    for (k, start) in starts.iter().enumerate() {
        numbers[*start as usize].add(k as u32)?;
    }
    Ok(numbers)
}

// No numbers at each place.
fn no_numbers(alloc: Global, places: usize) -> Result<Vec<Numbers>, AllocError>
    ensures { IfOk result (λ numbers. AreNumbered places [] numbers.items) }
{
    let mut numbers = Vec::new(alloc);
    for _ in 0..places {
        numbers.push(Numbers::new(alloc))?;
    }
    Ok(numbers)
}
