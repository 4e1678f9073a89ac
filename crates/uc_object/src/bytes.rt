//! The bytes of parts of an instruction.
ghost use Rattle.uc_object.specs.Rows.{IsRow, IsTarget};
ghost use Rattle.uc_isa.specs.declared.instruction.Instr.{Instr};

use uc_isa::Dst;

/// The byte of the place of a result.
pub fn target_byte(x: Dst) -> u8
    ensures { IsTarget x result }
{
    match x {
        Dst::A(r) => r.number,
        Dst::B(r) => 16 + r.number,
        Dst::S(r) => 64 + r.number,
        Dst::SD(r) => 80 + r.number,
        Dst::Nowhere => 96,
    }
}

/// The eight bytes of a halt.
pub fn halt_row(k: u16, n: u8) -> [u8; 8]
    ensures { IsRow (Instr.Halt k n) result }
{
    let [low, high] = k.to_le_bytes();
    [6, n, low, high, 0, 0, 0, 0]
}
