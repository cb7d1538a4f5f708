//! What is told of texts that are no change of a message, as the cases are.
use desk_msg::Mt;
use desk_reasons::{reason_of_message, write_reason};
use std::alloc::Global;
use std::test::Fail;

/// Texts, the line that is told of each, and the words.
const TEXTS: [(&[u8], usize, &str); 8] = [
    (b"", 1, "the text is empty"),
    (b"{4:", 1, "the text has no line feed"),
    (b"\n", 1, "the first line is not {4:"),
    (b"{4:\n", 1, "the text ends before its -}"),
    (
        b"{4:\n\x00\n-}",
        2,
        "here stands the byte 0x00, in column 1",
    ),
    (b"{4:\n:16S:GENL\n-}", 2, "no sequence is open here"),
    (
        b"{4:\n:16R:GENL\n-}",
        3,
        "a sequence is still open, that of line 2",
    ),
    (b"{4:\n-}", 1, "it stands nowhere"),
];

/// Whether this is told of a text, in that line.
fn is_told(alloc: Global, text: &[u8], line: usize, words: &str) -> Result<bool, Fail> {
    let mut written = Vec::new(alloc);
    let Some(told) = reason_of_message(alloc, Mt::Mt540, text)? else {
        return Ok(false);
    };
    write_reason(told.reason, &mut written)?;
    Ok(told.line == line && written.as_slice() == words.as_bytes())
}

#[test]
fn tells_reasons(rt: HostRuntime) -> Result<(), Fail> {
    for (text, line, words) in &TEXTS {
        assert!(rt; is_told(rt.alloc(), text, *line, words)?);
    }
    Ok(())
}

#[test]
fn tells_of_the_longest(rt: HostRuntime) -> Result<(), Fail> {
    let text = vec![in rt.alloc(); b' '; 65_537]?;
    let words = "the text has more than 65,536 bytes";
    assert!(rt; is_told(rt.alloc(), text.as_slice(), 1, words)?);
    Ok(())
}
