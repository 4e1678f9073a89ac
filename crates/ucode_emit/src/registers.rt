//! Places as instructions name them.

ghost use Rattle.std.specs.Prelude.{◌≡◌};
ghost use Rattle.ucode_emit.specs.Pieces as pieces;
ghost use Rattle.ucode_emit.specs.inner.Machine.{IsReadable, IsWritable};
ghost use Rattle.ucode_emit.specs.inner.Layers.{IsAddress};

use place_plan::Place;
use uc_isa::{Dst, Gpr, RegA, RegB, RegL, RegLD, RegS, RegSD, Src};

/// A place as a source.
pub fn source(p: Place) -> Src
    requires { IsReadable p }
    ensures { result ≡ pieces.source p }
{
    match p {
        Place::A(k) => Src::A(RegA { number: k }),
        Place::B(k) => Src::B(RegB { number: k }),
        Place::L(k) => Src::L(RegL { number: k }),
        Place::LD(k) => Src::LD(RegLD { number: k }),
        Place::S(_) => Src::A(RegA { number: 15 }),
        Place::SD(_) => Src::A(RegA { number: 15 }),
        Place::Slot(_) => Src::A(RegA { number: 15 }),
    }
}

/// A place as a target.
pub fn target(p: Place) -> Dst
    requires { IsWritable p }
    ensures { result ≡ pieces.target p }
{
    match p {
        Place::A(k) => Dst::A(RegA { number: k }),
        Place::B(k) => Dst::B(RegB { number: k }),
        Place::S(k) => Dst::S(RegS { number: k }),
        Place::SD(k) => Dst::SD(RegSD { number: k }),
        Place::L(_) => Dst::Nowhere,
        Place::LD(_) => Dst::Nowhere,
        Place::Slot(_) => Dst::Nowhere,
    }
}

/// A place as an address.
pub fn address(p: Place) -> Gpr
    requires { IsAddress p }
    ensures { result ≡ pieces.address_of p }
{
    match p {
        Place::A(k) => Gpr::A(RegA { number: k }),
        Place::B(k) => Gpr::B(RegB { number: k }),
        Place::L(_) => Gpr::A(RegA { number: 15 }),
        Place::LD(_) => Gpr::A(RegA { number: 15 }),
        Place::S(_) => Gpr::A(RegA { number: 15 }),
        Place::SD(_) => Gpr::A(RegA { number: 15 }),
        Place::Slot(_) => Gpr::A(RegA { number: 15 }),
    }
}
