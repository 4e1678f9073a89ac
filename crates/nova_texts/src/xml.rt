//! Texts in XML.

use nv_lines::Message;

/// Appends a text in which no byte is a sign of XML, and `?` stands for what XML can't hold.
pub fn push_escaped(out: &mut Message, text: &[u8]) {
    for byte in text {
        match *byte {
            b'&' => out.put("&amp;"),
            b'<' => out.put("&lt;"),
            b'>' => out.put("&gt;"),
            b'"' => out.put("&quot;"),
            b'\n' | b'\t' => out.byte(*byte),
            0..=31 | 127 => out.put("?"),
            other => out.byte(other),
        }
    }
}
