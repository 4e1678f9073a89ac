//! What a command prints.
ghost use Rattle.std.specs.Prelude.{◌≡◌, ◌≢◌, ◌++◌, ◌⊎◌};
ghost use Rattle.nv_outside.specs.Causes.{Rose};
ghost use Rattle.nv_outside.specs.Holding.{AppendsFront};
ghost use Rattle.novac_words.specs.declared.status.Status.{Status};

use crate::status::Status;
use nv_outside::{Put, Sink};

/// A status, and the text that is printed for it.
#[derive(Drop)]
pub struct Reply {
    pub status: Status,
    pub text: Vec<u8>,
}

impl Reply {
    /// Prints the text, and gives the status, or a write fault where the sink failed.
    pub fn print<K: Sink>(&self, out: &mut K) -> Status
        ensures status { (result ≡ self.now.status) ⊎ (result ≡ Status.WriteFault) }
        ensures unfailed { result ≢ Status.WriteFault → K.faults out.new ≡ K.faults out.old }
        ensures written { K.tells → result ≢ Status.WriteFault → K.written out.new ≡ K.written out.old ++ self.now.text.items }
        ensures front { K.tells → AppendsFront (K.written out.old) (K.written out.new) self.now.text.items }
        ensures printed { ((result ≡ Status.WriteFault) × Rose (K.faults out.old) (K.faults out.new)) ⊎ ((result ≡ self.now.status) × (K.tells → K.written out.new ≡ K.written out.old ++ self.now.text.items)) }
    {
        match out.put(&self.text) {
            Put::Done => self.status,
            Put::Failed => Status::WriteFault,
        }
    }
}
