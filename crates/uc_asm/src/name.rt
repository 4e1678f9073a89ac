//! The names of labels.
ghost use Rattle.std.specs.Prelude.{◌↔◌, IsTrue};
ghost use Rattle.uc_asm.specs.Items.{IsLetter, IsName, IsNameByte};

/// Whether a label can have this name.
pub fn is_name(name: &[u8]) -> bool
    ensures { IsTrue result ↔ IsName name.now }
{
    let Some(first) = name.first() else {
        return false;
    };
    is_letter(*first) && name.len() <= 64 && name.iter().all(|byte| is_name_byte(*byte))
}

fn is_letter(byte: u8) -> bool
    ensures { IsTrue result ↔ IsLetter byte }
{
    matches!(byte, b'A'..=b'Z' | b'a'..=b'z')
}

fn is_name_byte(byte: u8) -> bool
    ensures { IsTrue result ↔ IsNameByte byte }
{
    is_letter(byte) || matches!(byte, b'0'..=b'9' | b'_')
}
