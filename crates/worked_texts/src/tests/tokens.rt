//! Worked rows of tokens, and what they stand for.

use crate::tests::rows::same;
use std::alloc::Global;
use std::test::*;
use tsdl_grammar::*;

/// A text, and what its tokens stand for.
static ATOMS: &[(&str, &str)] = &[
    (
        r#"/* CTF 1.8 */ size = 0x10; "a\n" 18446744073709551616"#,
        r#"[Word(Text { text: "size" }), Mark(Equals), Number(16), Mark(Semicolon), Text(Text { text: "a\n" }), TooLarge]"#,
    ),
    // where tokens end
    (
        "/* CTF 1.8 */0x1F 08 0x 0X8 1ul 5llLu a//b\n/**/...:=:",
        r#"[Number(31), Number(0), Number(8), Number(0), Word(Text { text: "x" }), Number(0), Word(Text { text: "X8" }), Number(1), Number(5), Word(Text { text: "u" }), Word(Text { text: "a" }), Mark(Ellipsis), Mark(Assign), Mark(Colon)]"#,
    ),
    // numbers
    (
        "/* CTF 1.8 */0x1F 017 10ULL 0 18446744073709551615 18446744073709551616",
        "[Number(31), Number(15), Number(10), Number(0), Number(18446744073709551615), TooLarge]",
    ),
    // each escape
    (
        r#"/* CTF 1.8 */"\\\"\'\?\a\b\f\n\r\t\vz""#,
        r#"[Text(Text { text: "\\\"'?\u{7}\u{8}\u{c}\n\r\t\u{b}z" })]"#,
    ),
];

fn shown_atoms(alloc: Global, text: &[u8]) -> Result<String, Fail> {
    let atoms = atoms(alloc, text, &tokens(alloc, text)?)?;
    Ok(format!(in alloc; "{atoms:?}")?)
}

#[test]
fn tells_what_tokens_stand_for(rt: HostRuntime) -> Result<(), Fail> {
    for (text, expected) in ATOMS {
        let shown = shown_atoms(rt.alloc(), text.as_bytes())?;
        same(&rt, shown.as_str(), *expected, *text);
    }
    Ok(())
}

#[test]
fn tells_spans_literals_and_places(rt: HostRuntime) -> Result<(), Fail> {
    let spans = format!(in rt.alloc(); "{:?}", tokens(rt.alloc(), b"/* CTF 1.8 */ a;"))?;
    let expected =
        "Ok([Token { kind: Identifier, span: Span { start: 14, end: 15 } }, Token { kind: Mark(Semicolon), span: Span { start: 15, end: 16 } }])";
    same(&rt, spans.as_str(), expected, "two tokens");
    same(&rt, literal_value(b"0x1F"), Some(31), "a literal");
    same(&rt, literal_value(b"18446744073709551616"), None, "2^64");
    let found = found_at(rt.alloc(), b"/* CTF 1.8 */\na @", 16)?;
    let expected = "byte 16, line 2, column 3: found \"@\"";
    same(&rt, found.as_str(), expected, "a place");
    let end = found_at(rt.alloc(), b"/* CTF 1.8 */\na @", 17)?;
    let expected = "byte 17, line 2, column 4: found the end of the text";
    same(&rt, end.as_str(), expected, "the end");
    Ok(())
}
