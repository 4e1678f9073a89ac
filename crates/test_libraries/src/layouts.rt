// The fields of a layout without a source.
use nv_ast::{FieldText, LayoutText, Name};
use nv_base::NoMemory;
use nv_layout::{LayoutError, fields, shape, size};
use std::alloc::Global;

// Fields of so many bits, each with the letter of its name.
fn bit_fields(alloc: Global, bits: &[(u8, u32)]) -> Result<Vec<(Name, FieldText)>, NoMemory> {
    let mut fields = Vec::new(alloc);
    for (letter, n) in bits {
        if *letter < b'a' || *letter > b'z' {
            return Err(NoMemory);
        }
        fields.push((Name::new(alloc, &[*letter])?, FieldText::Bits(*n)))?;
    }
    Ok(fields)
}

#[test]
fn fields_stand_in_order_and_may_straddle_words(rt: HostRuntime) -> Result<(), LayoutError> {
    let parts = bit_fields(rt.alloc(), &[(b'a', 20), (b'b', 24), (b'c', 20)])?;
    let o = shape(rt.alloc(), &[], &LayoutText::Parts(parts))?;
    assert_eq!(rt; size(&o), 64);
    let found = fields(rt.alloc(), &o)?;
    assert_eq!(rt; found.len(), 3);
    for (f, (first, bits)) in found.iter().zip([(0, 20), (20, 24), (44, 20)]) {
        assert_eq!(rt; f.first, first);
        assert_eq!(rt; f.bits, bits);
    }
    Ok(())
}
