// The text of a 0-1 program, printed and read back.
use std::alloc::Global;
use std::test::Fail;
use zo_model::laws::read_back;
use zo_model::{ZeroOne, ZoError, is_valid, print_program, read_program};

const SIGNED: &[u8] = b"columns 2\nrows 2\nc 1048575\nc 0\nr -1073741824 0:-32768 1:1\nr 0\n";

fn read(alloc: Global, text: &[u8]) -> Result<ZeroOne, ZoError> {
    if text.len() > 1_000_000 {
        return Err(ZoError::NoMemory);
    }
    read_program(alloc, text)
}

#[test]
fn a_program_is_read_back_from_its_text(rt: HostRuntime) -> Result<(), Fail> {
    let alloc = rt.alloc();
    let z = read(alloc, SIGNED)?;
    assert!(rt; is_valid(&z));
    let text = print_program(alloc, &z)?;
    assert!(rt; text.as_slice() == SIGNED);
    let again = read_back(alloc, &z)?;
    assert_eq!(rt; again.rows.len(), 2);
    Ok(())
}
