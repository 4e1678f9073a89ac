//! What a command makes, saved.
ghost use Rattle.std.specs.Prelude.{◌≡◌, ◌⊎◌, ◌≤◌, ◌∷◌, [], IfOk};
ghost use Rattle.nv_outside.specs.Causes.{Rose};
ghost use Rattle.novac_words.specs.Lines.{cannot_write};
ghost use Rattle.nv_outside.specs.Calls.{Save, Asked, AsksAtMost};
ghost use Rattle.novac_machine.specs.Saving.{file, saves_of, AreSaved, IsCut};
ghost use Rattle.novac_machine.specs.inner.Files.{file_of, files_of, AreTold, IsTold};
ghost use Rattle.novac_words.specs.declared.status.Status.{Status};

use novac_words::{Reply, Status, named_line};
use nv_base::NoMemory;
use nv_outside::{Files, Saved};
use std::alloc::Global;

/// A file that is to be saved, and the line that says that it couldn't be.
#[derive(Drop)]
pub struct Output<'a> {
    pub name: &'a str,
    pub bytes: Vec<u8>,
    pub fault: Vec<u8>,
}

/// The files that a command saves, in this order.
#[derive(Drop)]
pub enum Outputs<'a> {
    Nothing,
    One(Output<'a>),
    Two(Output<'a>, Output<'a>),
}

/// What a command makes: its status and text, and the files that are saved before the text is printed.
#[derive(Drop)]
pub struct Made<'a> {
    pub status: Status,
    pub text: Vec<u8>,
    pub outputs: Outputs<'a>,
}

impl<'a> Output<'a> {
    /// These bytes, under this name.
    pub fn new(alloc: Global, name: &'a str, bytes: Vec<u8>) -> Result<Output<'a>, NoMemory>
        ensures file { IfOk result (λ o. file_of o ≡ file name.now bytes.items) }
        ensures told { IfOk result IsTold }
    {
        let fault = named_line(alloc, b"cannot write ", name)?;
        Ok(Output { name, bytes, fault })
    }

    /// Saves the file, and gives the reply, or where that failed a write fault.
    fn save<F: Files>(self, reply: Reply, files: &mut F) -> Reply
        requires { IsTold self }
        ensures asked { Asked F.history files.old files.new (Save self.entry.name.now ∷ []) }
        ensures saved { ((result.status ≡ reply.status) × (result.text.items ≡ reply.text.items) × (F.tells → AreSaved (file_of self.entry ∷ []) (F.held files.old) (F.held files.new))) ⊎ ((result.status ≡ Status.WriteFault) × IsCut F.tells (file_of self.entry ∷ []) (F.held files.old) (F.held files.new) (λ name. Rose (F.save_faults files.old name) (F.save_faults files.new name) × (result.text.items ≡ cannot_write name))) }
    {
        match files.save(self.name, &self.bytes) {
            Saved::Done => reply,
            Saved::Failed => Reply {
                status: Status::WriteFault,
                text: self.fault,
            },
        }
    }
}

impl<'a> Made<'a> {
    /// One file that is to be saved, and this status and text.
    pub fn one(
        alloc: Global,
        status: Status,
        text: Vec<u8>,
        name: &'a str,
        bytes: Vec<u8>,
    ) -> Result<Made<'a>, NoMemory>
        ensures status { IfOk result (λ m. m.status ≡ status) }
        ensures text { IfOk result (λ m. m.text.items ≡ text.items) }
        ensures saves { IfOk result (λ m. files_of m.outputs ≡ file name.now bytes.items ∷ []) }
        ensures told { IfOk result (λ m. AreTold m.outputs) }
    {
        let output = Output::new(alloc, name, bytes)?;
        Ok(Made {
            status,
            text,
            outputs: Outputs::One(output),
        })
    }

    /// Saves the files, and stops where one can't be. All memory was taken before.
    pub fn save<F: Files>(self, files: &mut F) -> Reply
        requires { AreTold self.outputs }
        ensures asked { AsksAtMost F.history files.old files.new (saves_of (files_of self.entry.outputs)) }
        ensures saved { ((result.status ≡ self.entry.status) × (result.text.items ≡ self.entry.text.items) × (F.tells → AreSaved (files_of self.entry.outputs) (F.held files.old) (F.held files.new))) ⊎ ((result.status ≡ Status.WriteFault) × IsCut F.tells (files_of self.entry.outputs) (F.held files.old) (F.held files.new) (λ name. Rose (F.save_faults files.old name) (F.save_faults files.new name) × (result.text.items ≡ cannot_write name))) }
    {
        let Made {
            status,
            text,
            outputs,
        } = self;
        let reply = Reply { status, text };
        match outputs {
            Outputs::Nothing => reply,
            Outputs::One(output) => output.save(reply, files),
            Outputs::Two(first, second) => match files.save(first.name, &first.bytes) {
                Saved::Done => second.save(reply, files),
                Saved::Failed => Reply {
                    status: Status::WriteFault,
                    text: first.fault,
                },
            },
        }
    }
}
