//! Identifiers and keywords of the metadata language.

ghost use Rattle.std.specs.Prelude.{◌≡◌, ◌||◌};
ghost use Rattle.std.specs.List.{list_all, list_any};
ghost use Rattle.std.specs.Str.{bytes_eq};
ghost use Rattle.ctf_types.specs.Names.{is_identifier as is_identifier_of, is_letter as is_letter_of, is_digit as is_digit_of, unused_keywords};

/// Whether a text is an identifier: a letter of ASCII or an underscore, and then letters, digits and underscores (CTF 1.8.3, appendix C.1.3).
#[tactic(auto, unfolding(crate::specs::Names::is_identifier))]
pub fn is_identifier(text: &str) -> bool
    ensures { result ≡ is_identifier_of text.now }
{
    match text.as_bytes() {
        [] => false,
        [first, rest @ ..] => is_letter(*first) && are_letters_or_digits(rest),
    }
}

fn is_letter(byte: u8) -> bool
    ensures { result ≡ is_letter_of byte }
{
    byte.is_ascii_uppercase() || byte.is_ascii_lowercase() || byte == b'_'
}

fn is_letter_or_digit(byte: u8) -> bool
    ensures { result ≡ (is_letter_of byte || is_digit_of byte) }
{
    is_letter(byte) || byte.is_ascii_digit()
}

fn are_letters_or_digits(bytes: &[u8]) -> bool
    ensures { result ≡ list_all (λ d. is_letter_of d || is_digit_of d) bytes.now }
{
    for byte in bytes {
        if !is_letter_or_digit(*byte) {
            return false;
        }
    }
    true
}

/// Whether a word is a keyword of TSDL for which nothing here has a use (CTF 1.8.3, appendix C.1.2): metadata that has one anywhere is refused.
pub fn is_unused_keyword(word: &str) -> bool
    ensures { result ≡ list_any (bytes_eq word.now) unused_keywords }
{
    matches!(
        word,
        "callsite"
            | "char"
            | "const"
            | "double"
            | "float"
            | "floating_point"
            | "int"
            | "long"
            | "short"
            | "typealias"
            | "typedef"
            | "unsigned"
            | "variant"
            | "void"
            | "_Bool"
            | "_Complex"
            | "_Imaginary"
    )
}
