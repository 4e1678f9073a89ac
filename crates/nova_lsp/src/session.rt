//! A session with an editor.
ghost use Rattle.std.specs.Prelude.{◌≡◌, None, Some, IsUtf8};
ghost use Rattle.serde_json.specs.Data.{Data};
ghost use Rattle.serde_json.specs.Read.{read};
ghost use Rattle.serde_json.specs.View.{view};
ghost use Rattle.nova_lsp.specs.Codes.{no_json};
ghost use Rattle.nova_lsp.specs.Exchanges.{IsHandled, IsPassedOver};

use crate::documents::Documents;
use crate::kind::{Kind, kind_of, method_of};
use crate::stage::Stage;
use crate::{INVALID, NO_JSON, Reply, refused_null};
use serde_json::Value;
use std::alloc::Global;

/// A session with an editor: how far it is, and the sources that are open.
#[derive(Drop)]
pub struct Session {
    pub stage: Stage,
    documents: Documents,
}

impl Session {
    /// At its beginning.
    pub fn new(alloc: Global) -> Session
        ensures { result.stage ≡ Stage.New }
    {
        Session {
            stage: Stage::New,
            documents: Documents::new(alloc),
        }
    }

    #[tactic(auto, using(crate::proofs::Readings::of_read, crate::proofs::Readings::of_unread, crate::proofs::Readings::no_memory, crate::proofs::Readings::passed_over))]
    /// What is sent for a message with this content.
    pub fn respond(&mut self, alloc: Global, content: &[u8]) -> Reply
        // A message gets what it wants, or nothing.
        ensures message { IsUtf8 content.now → (d : Data) → read content.now ≡ Some d → IsHandled self.old.stage d result self.new.stage }
        ensures no_json { (IsUtf8 content.now → read content.now ≡ None) → IsPassedOver self.old.stage no_json result self.new.stage }
    {
        match Value::from_slice(alloc, content) {
            Ok(message) => {
                let reply = self.respond_to(alloc, &message);
                drop(message);
                reply
            }
            Err(error) => {
                if error.is_memory() {
                    return Reply::NoMemory;
                }
                refused_null(alloc, NO_JSON)
            }
        }
    }

    fn respond_to(&mut self, alloc: Global, message: &Value) -> Reply
        ensures { IsHandled self.old.stage (view message.now) result self.new.stage }
    {
        let stage = self.stage;
        let method = method_of(message);
        let params = params_of(message);
        match kind_of(message) {
            Kind::Request(id) => {
                self.stage = stage.after_request(method);
                self.documents.answer(alloc, id, stage, method, params)
            }
            Kind::Notice => {
                self.stage = stage.after_notice(method);
                self.documents.note(alloc, stage, method, params)
            }
            Kind::Response => Reply::Nothing,
            Kind::Invalid => refused_null(alloc, INVALID),
        }
    }
}

// The parameters of a message; without any the message itself, which has none of their members.
fn params_of(message: &Value) -> &Value {
    match message.get("params") {
        Some(params) => params,
        None => message,
    }
}
