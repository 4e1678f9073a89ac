//! Replies as they are written.
ghost use Rattle.std.specs.Prelude.{◌≡◌, ◌++◌, true};
ghost use Rattle.nova_lsp.specs.Frames.{frame, AppendsReply};

use crate::envelope::Reply;
use itoa::Buffer;
use nv_outside::{Put, Sink};

/// Sends a reply, and gives whether that was done.
pub fn send<K: Sink>(out: &mut K, reply: Reply) -> bool
    ensures { K.tells → result ≡ true → AppendsReply reply (K.written out.old) (K.written out.new) }
{
    match reply {
        Reply::Nothing => true,
        Reply::Content(content) => send_content(out, &content),
        Reply::NoMemory => send_content(out, NO_MEMORY.as_bytes()),
    }
}

// Sends a content with its length before it. That takes no memory.
fn send_content<K: Sink>(out: &mut K, content: &[u8]) -> bool
    ensures { K.tells → result ≡ true → K.written out.new ≡ K.written out.old ++ frame content.now }
{
    let mut buffer = Buffer::new();
    let length = buffer.format(content.len() as u64);
    is_put(out, b"Content-Length: ")
        && is_put(out, length.as_bytes())
        && is_put(out, b"\r\n\r\n")
        && is_put(out, content)
}

fn is_put<K: Sink>(out: &mut K, bytes: &[u8]) -> bool
    ensures { K.tells → result ≡ true → K.written out.new ≡ K.written out.old ++ bytes.now }
{
    out.put(bytes) == Put::Done
}

// The answer for which there is no memory.
const NO_MEMORY: &str =
    "{\"jsonrpc\":\"2.0\",\"id\":null,\"error\":{\"code\":-32603,\"message\":\"out of memory\"}}";
