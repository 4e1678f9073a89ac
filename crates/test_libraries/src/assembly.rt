// A listing is assembled again.
use std::test::Fail;
use uc_asm::laws::assemble_printed;
use uc_asm::{assemble, print};

#[test]
fn a_listing_is_assembled_again(rt: HostRuntime) -> Result<(), Fail> {
    let code = assemble(
        rt.alloc(),
        b"params 2\nsum:\nalu A0 ADD A0 B0\nhalt 0 1\nbr ALWAYS sum\n",
    )?;
    let text = print(rt.alloc(), &code)?;
    let listing = b"params 2\nalu A0 ADD A0 B0\nhalt 0 1\nbr ALWAYS @0\n";
    assert_eq!(rt; text.as_slice(), listing.as_slice());
    let again = assemble_printed(rt.alloc(), &code)?;
    let text = print(rt.alloc(), &again)?;
    assert_eq!(rt; text.as_slice(), listing.as_slice());
    Ok(())
}
