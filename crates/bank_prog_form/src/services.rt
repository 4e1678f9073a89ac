//! How uses can be served.

ghost use Rattle.std.specs.Prelude.{◌≡◌};
ghost use Rattle.bank_prog_form.specs.Columns as columns;
ghost use Rattle.place_plan.specs.inner.UseViews.{role_view};

use crate::column::{Bank, Service};
use place_plan::Role;

const OPERAND: [Service; 7] = [
    Service {
        from: Bank::A,
        at: Bank::A,
        cost: 0,
    },
    Service {
        from: Bank::B,
        at: Bank::B,
        cost: 0,
    },
    Service {
        from: Bank::T,
        at: Bank::T,
        cost: 0,
    },
    Service {
        from: Bank::M,
        at: Bank::L,
        cost: 16,
    },
    Service {
        from: Bank::M,
        at: Bank::A15,
        cost: 16,
    },
    Service {
        from: Bank::B,
        at: Bank::A15,
        cost: 1,
    },
    Service {
        from: Bank::T,
        at: Bank::A15,
        cost: 1,
    },
];

const ADDRESS: [Service; 4] = [
    Service {
        from: Bank::A,
        at: Bank::A,
        cost: 0,
    },
    Service {
        from: Bank::B,
        at: Bank::B,
        cost: 0,
    },
    Service {
        from: Bank::T,
        at: Bank::A15,
        cost: 1,
    },
    Service {
        from: Bank::M,
        at: Bank::A15,
        cost: 16,
    },
];

const WRITTEN: [Service; 4] = [
    Service {
        from: Bank::A,
        at: Bank::W,
        cost: 1,
    },
    Service {
        from: Bank::B,
        at: Bank::W,
        cost: 1,
    },
    Service {
        from: Bank::T,
        at: Bank::W,
        cost: 1,
    },
    Service {
        from: Bank::M,
        at: Bank::W,
        cost: 17,
    },
];

const ARGUMENT: [Service; 12] = [
    Service {
        from: Bank::A,
        at: Bank::A,
        cost: 0,
    },
    Service {
        from: Bank::A,
        at: Bank::B,
        cost: 1,
    },
    Service {
        from: Bank::A,
        at: Bank::M,
        cost: 17,
    },
    Service {
        from: Bank::B,
        at: Bank::A,
        cost: 1,
    },
    Service {
        from: Bank::B,
        at: Bank::B,
        cost: 0,
    },
    Service {
        from: Bank::B,
        at: Bank::M,
        cost: 17,
    },
    Service {
        from: Bank::T,
        at: Bank::A,
        cost: 1,
    },
    Service {
        from: Bank::T,
        at: Bank::B,
        cost: 1,
    },
    Service {
        from: Bank::T,
        at: Bank::M,
        cost: 17,
    },
    Service {
        from: Bank::M,
        at: Bank::A,
        cost: 17,
    },
    Service {
        from: Bank::M,
        at: Bank::B,
        cost: 17,
    },
    Service {
        from: Bank::M,
        at: Bank::M,
        cost: 33,
    },
];

const ENDING: [Service; 4] = [
    Service {
        from: Bank::A,
        at: Bank::A,
        cost: 0,
    },
    Service {
        from: Bank::B,
        at: Bank::A,
        cost: 1,
    },
    Service {
        from: Bank::T,
        at: Bank::A,
        cost: 1,
    },
    Service {
        from: Bank::M,
        at: Bank::A,
        cost: 17,
    },
];

/// How a use in this role can be served.
pub fn services(role: Role) -> &'static [Service]
    ensures { result.now ≡ columns.services (role_view role) }
{
    match role {
        Role::Operand => &OPERAND,
        Role::Address => &ADDRESS,
        Role::Written(_, _) => &WRITTEN,
        Role::Argument(_, _) => &ARGUMENT,
        Role::Ending(_) => &ENDING,
    }
}
