ghost use Rattle.std.specs.Prelude.{◌≤◌, true, take, drop, length, ◌≡◌};
ghost use Rattle.mine_model.specs.Tokens.{is_free, is_bare_byte, is_closing_brace, Each, BeginsOtherwise};
ghost use Rattle.std.specs.Char.{is_ascii_digit};
ghost use Rattle.patex_parser.specs.Classes.{test_of};

// Whether the byte stands free between tokens.
pub(crate) fn is_free(b: u8) -> bool
    ensures { result ≡ is_free b }
{
    b == b' ' || b == b'\t' || b == b'\n' || b == b'\r'
}

// Whether the byte is one of bare names.
pub(crate) fn is_bare_byte(b: u8) -> bool
    ensures { result ≡ is_bare_byte b }
{
    matches!(
        b,
        b'a'..=b'z'
            | b'A'..=b'Z'
            | b'0'..=b'9'
            | b'_'
            | b'-'
            | b'@'
            | b'/'
            | b':'
            | b'#'
            | b'%'
            | b'&'
            | 128..=255
    )
}

/// The bytes that runs are made of.
#[derive(Clone, Copy)]
pub(crate) enum Class {
    Free,
    Bare,
    Digit,
    /// All but the brace that closes a repeat.
    Inner,
    /// All but a comma.
    BeforeComma,
}

impl Class {
    fn has(self, b: u8) -> bool
        ensures { result ≡ test_of self b }
    {
        match self {
            Class::Free => is_free(b),
            Class::Bare => is_bare_byte(b),
            Class::Digit => b.is_ascii_digit(),
            Class::Inner => b != b'}',
            Class::BeforeComma => b != b',',
        }
    }
}

// How many bytes of the class come first.
pub(crate) fn run_of(class: Class, bytes: &[u8]) -> usize
    ensures within { result ≤ length bytes.now }
    ensures each { Each (test_of class) true (take result bytes.now) }
    ensures longest { BeginsOtherwise (test_of class) (drop result bytes.now) }
{
    let mut end = 0;
    while end < bytes.len() && class.has(bytes[end]) {
        end += 1;
    }
    end
}
