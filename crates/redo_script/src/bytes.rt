//! Classes of bytes in a script.

ghost use Rattle.std.specs.Prelude.{◌≡◌};
ghost use Rattle.redo_script.specs.Bytes.{is_plain, begins_name, continues_name};

// Each plain byte is at its own index; at every other index is `#`, which isn't plain.
static PLAIN_BYTES: [u8; 256] = *b"\
    ################################\
    #!###%#####+,-./0123456789:##=##\
    @ABCDEFGHIJKLMNOPQRSTUVWXYZ####_\
    #abcdefghijklmnopqrstuvwxyz#####\
    ################################\
    ################################\
    ################################\
    ################################";

/// Whether a byte is literal outside quotes, and may occur in the value of an unquoted parameter: a letter, a digit, or
/// one of `_ - . / + , : = @ % !`.
pub fn is_plain_byte(byte: u8) -> bool
    ensures { result ≡ is_plain byte }
{
    // Nearly every byte is looked up here, and a table takes the fewest steps.
    PLAIN_BYTES[byte as usize] != b'#'
}

/// Whether a name may begin with this byte: a letter or `_`.
pub fn is_name_start(byte: u8) -> bool
    ensures { result ≡ begins_name byte }
{
    matches!(byte, b'a'..=b'z' | b'A'..=b'Z' | b'_')
}

/// Whether a name may continue with this byte: a letter, a digit or `_`.
pub fn is_name_byte(byte: u8) -> bool
    ensures { result ≡ continues_name byte }
{
    is_name_start(byte) || byte.is_ascii_digit()
}
