//! The parts of a line that name something.
ghost use Rattle.std.specs.Prelude.{◌≡◌, ◌≢◌, ◌<◌, ℕ, List, [], ◌∷◌, ◌++◌, decimal, IfSome, IfNone, MatchOption};
ghost use Rattle.uc_asm.specs.Words.{source_name, target_name, address_name, binary_name, unary_words, memory_name, IsSource, IsTarget, IsAddress, IsUnary};
ghost use Rattle.nv_base.specs.declared.term.Bin.{Bin};
ghost use Rattle.nv_base.specs.declared.term.Mem.{Mem};
ghost use Rattle.uc_isa.specs.declared.instruction.Src.{Src};
ghost use Rattle.uc_isa.specs.declared.instruction.Dst.{Dst};
ghost use Rattle.uc_isa.specs.declared.instruction.Gpr.{Gpr};
ghost use Rattle.uc_isa.specs.declared.instruction.UnOp.{UnOp};

use nv_base::{Bin, Mem};
use nv_lines::{Parts, read_decimal, strip};
use uc_isa::{Dst, Gpr, RegA, RegB, RegL, RegLD, RegS, RegSD, Src, UnOp};

// The number below `count` that a register of a bank has.
fn register(name: &[u8], bank: &[u8], count: u8) -> Option<u8>
    ensures some { IfSome result (λ i. (i < count) × (name.now ≡ bank.now ++ decimal i)) }
    ensures none { IfNone result ((i : ℕ) → i < count → name.now ≢ bank.now ++ decimal i) }
{
    if count == 0 {
        return None;
    }
    let i = read_decimal(strip(name, bank)?, u64::from(count) - 1)?;
    Some(i as u8)
}

fn source_of(name: &[u8]) -> Option<Src>
    ensures { MatchOption result ((x : Src) → IsSource x → name.now ≢ source_name x) (λ x. IsSource x × (name.now ≡ source_name x)) }
{
    if let Some(number) = register(name, b"A", 16) {
        return Some(Src::A(RegA { number }));
    }
    if let Some(number) = register(name, b"B", 16) {
        return Some(Src::B(RegB { number }));
    }
    if let Some(number) = register(name, b"L", 8) {
        return Some(Src::L(RegL { number }));
    }
    let number = register(name, b"LD", 8)?;
    Some(Src::LD(RegLD { number }))
}

fn target_of(name: &[u8]) -> Option<Dst>
    ensures { MatchOption result ((d : Dst) → IsTarget d → name.now ≢ target_name d) (λ d. IsTarget d × (name.now ≡ target_name d)) }
{
    if name == b"none".as_slice() {
        return Some(Dst::Nowhere);
    }
    if let Some(number) = register(name, b"A", 16) {
        return Some(Dst::A(RegA { number }));
    }
    if let Some(number) = register(name, b"B", 16) {
        return Some(Dst::B(RegB { number }));
    }
    if let Some(number) = register(name, b"S", 8) {
        return Some(Dst::S(RegS { number }));
    }
    let number = register(name, b"SD", 8)?;
    Some(Dst::SD(RegSD { number }))
}

fn address_of(name: &[u8]) -> Option<Gpr>
    ensures { MatchOption result ((x : Gpr) → IsAddress x → name.now ≢ address_name x) (λ x. IsAddress x × (name.now ≡ address_name x)) }
{
    if let Some(number) = register(name, b"A", 16) {
        return Some(Gpr::A(RegA { number }));
    }
    let number = register(name, b"B", 16)?;
    Some(Gpr::B(RegB { number }))
}

fn binary_of(name: &[u8]) -> Option<Bin>
    ensures { MatchOption result ((op : Bin) → name.now ≢ binary_name op) (λ op. name.now ≡ binary_name op) }
{
    match name {
        b"ADD" => Some(Bin::Add),
        b"SUB" => Some(Bin::Sub),
        b"AND" => Some(Bin::And),
        b"OR" => Some(Bin::Or),
        b"XOR" => Some(Bin::Xor),
        _ => None,
    }
}

/// Takes the next part, an operand.
pub fn next_source(parts: &mut Parts) -> Option<Src>
    ensures { MatchOption result ((x : Src) (ps : List (List ℕ)) → IsSource x → parts.old ≢ source_name x ∷ ps) (λ x. IsSource x × (parts.old ≡ source_name x ∷ parts.new)) }
{
    source_of(parts.next_part()?)
}

/// Takes the next part, the place of a result.
pub fn next_target(parts: &mut Parts) -> Option<Dst>
    ensures { MatchOption result ((d : Dst) (ps : List (List ℕ)) → IsTarget d → parts.old ≢ target_name d ∷ ps) (λ d. IsTarget d × (parts.old ≡ target_name d ∷ parts.new)) }
{
    target_of(parts.next_part()?)
}

/// Takes the next part, an address register.
pub fn next_address(parts: &mut Parts) -> Option<Gpr>
    ensures { MatchOption result ((x : Gpr) (ps : List (List ℕ)) → IsAddress x → parts.old ≢ address_name x ∷ ps) (λ x. IsAddress x × (parts.old ≡ address_name x ∷ parts.new)) }
{
    address_of(parts.next_part()?)
}

/// Takes the next part, an operation on two words.
pub fn next_binary(parts: &mut Parts) -> Option<Bin>
    ensures { MatchOption result ((op : Bin) (ps : List (List ℕ)) → parts.old ≢ binary_name op ∷ ps) (λ op. parts.old ≡ binary_name op ∷ parts.new) }
{
    binary_of(parts.next_part()?)
}

/// Takes the next part, a memory.
pub fn next_memory(parts: &mut Parts) -> Option<Mem>
    ensures { MatchOption result ((m : Mem) (ps : List (List ℕ)) → parts.old ≢ memory_name m ∷ ps) (λ m. parts.old ≡ memory_name m ∷ parts.new) }
{
    Mem::of_name(parts.next_part()?)
}

// The shift of this name and count.
fn shift_of(name: &[u8], k: u8) -> Option<UnOp>
    ensures { MatchOption result ((op : UnOp) → unary_words op ≢ name.now ∷ decimal k ∷ []) (λ op. IsUnary op × (unary_words op ≡ name.now ∷ decimal k ∷ [])) }
{
    match name {
        b"SHL" => Some(UnOp::Shl(k)),
        b"SHR" => Some(UnOp::Shr(k)),
        b"ROL" => Some(UnOp::Rol(k)),
        _ => None,
    }
}

// The operation of this name that has no count.
fn countless_of(name: &[u8]) -> Option<UnOp>
    ensures { MatchOption result ((op : UnOp) → unary_words op ≢ name.now ∷ []) (λ op. IsUnary op × (unary_words op ≡ name.now ∷ [])) }
{
    match name {
        b"COPY" => Some(UnOp::Copy),
        b"NOT" => Some(UnOp::Not),
        _ => None,
    }
}

/// Takes the next parts, an operation on one word and the count of a shift.
pub fn next_unary(parts: &mut Parts) -> Option<UnOp>
    ensures { MatchOption result ((op : UnOp) (ps : List (List ℕ)) → IsUnary op → parts.old ≢ unary_words op ++ ps) (λ op. IsUnary op × (parts.old ≡ unary_words op ++ parts.new)) }
{
    let name = parts.next_part()?;
    if let Some(op) = countless_of(name) {
        return Some(op);
    }
    let k = parts.next_decimal(255)?;
    shift_of(name, k as u8)
}
