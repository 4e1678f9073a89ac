//! The registers of the microengine. A register's number is always below the size of its bank.
use std::marker::Model;

/// A general register of bank A: 0 to 15.
#[derive(Clone, Copy)]
pub struct RegA {
    pub number: u8,
}

impl Model for RegA {
    ghost use Rattle.std.specs.Prelude.{ℕ, ◌<◌};

    ghost Value = { ℕ };

    ghost view = { λ r. r.number };

    ghost invariant = { λ r. r.number < 16 };

    ghost inverse = { λ n. record { number = n } };
}

/// A general register of bank B: 0 to 15.
#[derive(Clone, Copy)]
pub struct RegB {
    pub number: u8,
}

impl Model for RegB {
    ghost use Rattle.std.specs.Prelude.{ℕ, ◌<◌};

    ghost Value = { ℕ };

    ghost view = { λ r. r.number };

    ghost invariant = { λ r. r.number < 16 };

    ghost inverse = { λ n. record { number = n } };
}

/// A read register for SRAM and scratch: 0 to 7.
#[derive(Clone, Copy)]
pub struct RegL {
    pub number: u8,
}

impl Model for RegL {
    ghost use Rattle.std.specs.Prelude.{ℕ, ◌<◌};

    ghost Value = { ℕ };

    ghost view = { λ r. r.number };

    ghost invariant = { λ r. r.number < 8 };

    ghost inverse = { λ n. record { number = n } };
}

/// A write register for SRAM and scratch: 0 to 7.
#[derive(Clone, Copy)]
pub struct RegS {
    pub number: u8,
}

impl Model for RegS {
    ghost use Rattle.std.specs.Prelude.{ℕ, ◌<◌};

    ghost Value = { ℕ };

    ghost view = { λ r. r.number };

    ghost invariant = { λ r. r.number < 8 };

    ghost inverse = { λ n. record { number = n } };
}

/// A read register for SDRAM: 0 to 7.
#[derive(Clone, Copy)]
pub struct RegLD {
    pub number: u8,
}

impl Model for RegLD {
    ghost use Rattle.std.specs.Prelude.{ℕ, ◌<◌};

    ghost Value = { ℕ };

    ghost view = { λ r. r.number };

    ghost invariant = { λ r. r.number < 8 };

    ghost inverse = { λ n. record { number = n } };
}

/// A write register for SDRAM: 0 to 7.
#[derive(Clone, Copy)]
pub struct RegSD {
    pub number: u8,
}

impl Model for RegSD {
    ghost use Rattle.std.specs.Prelude.{ℕ, ◌<◌};

    ghost Value = { ℕ };

    ghost view = { λ r. r.number };

    ghost invariant = { λ r. r.number < 8 };

    ghost inverse = { λ n. record { number = n } };
}
