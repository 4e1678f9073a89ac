// Programs without a fault of typing.

ghost use Rattle.std.specs.Prelude.{◌≡◌, ◌≤◌};
ghost use Rattle.nv_ast.specs.ProgramView.{program_of};
ghost use Rattle.nv_ast.specs.Faults.{IsTyped};
ghost use Rattle.nv_ast.specs.Sizes.{expanded_size, room as room_of, main_words};

use crate::program::Program;

/// A program without a fault of typing, whose expanded size is at most 4,096, with its sizes.
#[derive(Drop)]
pub struct Typed {
    program: Program,
    expanded: u32,
    room: u32,
    params: u8,
    ghost typed: { IsTyped (program_of program) },
    ghost sized: { expanded ≡ expanded_size (program_of program) },
    ghost small: { expanded ≤ 4096 },
    ghost roomy: { room ≡ room_of (program_of program) },
    ghost wide: { params ≡ main_words (program_of program) },
}

impl Typed {
    ghost use Rattle.std.specs.Prelude.{◌≡◌, ◌≤◌, ◌+◌, ◌*◌};
    ghost use Rattle.nv_ast.specs.ProgramView.{program_of};
    ghost use Rattle.nv_ast.specs.Faults.{IsTyped};
    ghost use Rattle.nv_ast.specs.Sizes.{expanded_size, room as room_of, main_words};
    ghost use Rattle.nv_ast.specs.TypedView.{typed_program};

    /// The typed program of a program without a fault, with its sizes.
    pub fn of(p: Program, expanded: u32, room: u32, params: u8) -> Typed
        requires typed { IsTyped (program_of p) }
        requires sized { expanded ≡ expanded_size (program_of p) }
        requires small { expanded ≤ 4096 }
        requires roomy { room ≡ room_of (program_of p) }
        requires wide { params ≡ main_words (program_of p) }
        ensures { typed_program result ≡ program_of p }
    {
        Typed {
            program: p,
            expanded,
            room,
            params,
        }
    }

    /// The program.
    pub fn program(&self) -> &Program
        ensures same { program_of result.now ≡ typed_program self.now }
        ensures typed { IsTyped (typed_program self.now) }
    {
        &self.program
    }

    /// The expanded size: main's group, with each called group counted at each call.
    pub fn expanded(&self) -> u32
        ensures sized { result ≡ expanded_size (typed_program self.now) }
        ensures small { result ≤ 4096 }
    {
        self.expanded
    }

    /// How many words may be wanted at once.
    pub fn room(&self) -> u32
        ensures roomy { result ≡ room_of (typed_program self.now) }
        ensures bounded { result ≤ 5 * expanded_size (typed_program self.now) + 8 }
    {
        self.room
    }

    /// The number of words of main's parameters.
    pub fn params(&self) -> u8
        ensures wide { result ≡ main_words (typed_program self.now) }
        ensures narrow { result ≤ 8 }
    {
        self.params
    }
}
