//! Texts that no case of the program has, and the writer of blocks, which nothing calls.
use desk_text::{BlockWriter, TextFault, is_name, is_tag, is_value, read_block};
use std::test::Fail;

/// Texts, and the fault of each.
const FAULTS: [(&[u8], TextFault); 21] = [
    // the first line, whatever is wrong with it
    (b"\n{4:\n-}", TextFault::NotBlock),
    (b"{4: \n-}", TextFault::NotBlock),
    (b"{4:\r", TextFault::NotBlock),
    (b"{4:\r\r\n-}", TextFault::NotBlock),
    (b"{4\x80:\n-}", TextFault::NotBlock),
    // bytes outside the set, and a CR not before LF
    (b"{4:\n:20C:\x80\n-}", TextFault::BadLine(2)),
    (b"{4:\n:20C:\x1F\n-}", TextFault::BadLine(2)),
    (b"{4:\n:20C:a\rb\n-}", TextFault::BadLine(2)),
    (b"{4:\n-}\r", TextFault::BadLine(2)),
    // lines that are no fields, names and ends
    (b"{4:\n:16R:\n-}", TextFault::BadLine(2)),
    (b"{4:\n:16R:Genl\n-}", TextFault::BadLine(2)),
    (b"{4:\n:16S:12345678901234567\n-}", TextFault::BadLine(2)),
    (b"{4:\n:20C\n-}", TextFault::BadLine(2)),
    (b"{4:\n:2AC:x\n-}", TextFault::BadLine(2)),
    (b"{4:\n:20C:x\n-\n-}", TextFault::BadLine(3)),
    // a further line of an opening, an empty line behind a closing
    (b"{4:\n:16R:GENL\nx\n:16S:GENL\n-}", TextFault::BadLine(3)),
    (b"{4:\n:16R:GENL\n:16S:GENL\n\n-}", TextFault::BadLine(4)),
    // an end with a sequence open, a closing with none
    (b"{4:\n:16R:GENL\n-}", TextFault::BadNesting(3)),
    (b"{4:\n:16S:GENL\n-}", TextFault::BadNesting(2)),
    // after the end
    (b"{4:\n-}\n\r\n\nx\n-}", TextFault::BadLine(5)),
    (b"{4:\n-}\n:16S:GENL\n", TextFault::BadLine(3)),
];

#[test]
fn worked_faults(rt: HostRuntime) {
    for (text, fault) in &FAULTS {
        assert!(rt; read_block(rt.alloc(), text).err() == Some(*fault));
    }
}

#[test]
fn writes_parts(rt: HostRuntime) -> Result<(), Fail> {
    let mut writer = BlockWriter::new(rt.alloc());
    writer.open(b"GENL")?;
    writer.field(b"35B", b"ISIN DE0007164600\nBEARER\n")?;
    writer.close()?;
    writer.field(b"99", b"")?;
    let text = writer.finish()?;
    let want =
        b"{4:\r\n:16R:GENL\r\n:35B:ISIN DE0007164600\r\nBEARER\r\n\r\n:16S:GENL\r\n:99:\r\n-}";
    assert!(rt; text.as_slice() == want.as_slice());
    Ok(())
}

/// Texts, and whether each is a name, a tag and a value.
const SPELLED: [(&[u8], bool, bool, bool); 12] = [
    (b"A234567890123456", true, false, true),
    (b"A2345678901234567", false, false, true),
    (b"", false, false, true),
    (b"20C", true, true, true),
    (b"99", true, true, true),
    (b"20CC", true, false, true),
    (b"16R", true, false, true),
    (b"16A", true, true, true),
    (b"-:x\n\nmore\n", false, false, true),
    (b"x\n:y", false, false, false),
    (b"x\n-y", false, false, false),
    (b"x\r\ny", false, false, false),
];

#[test]
fn spells_names_tags_and_values(rt: HostRuntime) {
    for (text, name, tag, value) in &SPELLED {
        assert!(rt; is_name(text) == *name && is_tag(text) == *tag && is_value(text) == *value);
    }
}
