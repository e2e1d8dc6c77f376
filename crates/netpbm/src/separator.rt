// What stands between the words of a plain PGM.
ghost use Rattle.std.specs.Prelude.{◌≡◌};
ghost use Rattle.netpbm.specs.Words.{separator};

// Whether the byte is a space, a tab, a CR or an LF.
pub(crate) fn is_separator(byte: u8) -> bool
    ensures { result ≡ separator byte }
{
    b" \t\r\n".contains(&byte)
}
