// What may want memory succeeds on plain texts.
use crate::bytes::push_hex;
use crate::lines::answer_lines;
use std::io;
use std::io::Write;
use std::test::Fail;

// Counts the writes that reach it.
#[derive(Drop)]
struct Counter {
    writes: usize,
}

impl Write for Counter {
    fn write(&mut self, buf: &[u8]) -> io::Result<usize> {
        self.writes = self.writes.saturating_add(1);
        Ok(buf.len())
    }

    fn flush(&mut self) -> io::Result<()> {
        Ok(())
    }
}

#[test]
fn digits_give_bytes(rt: HostRuntime) -> Result<(), Fail> {
    let mut bytes = Vec::new(rt.alloc());
    bytes.push(7)?;
    push_hex(&mut bytes, "00ff1aA2g9c")?;
    assert_eq!(rt; bytes.as_slice(), [7, 0, 255, 26, 2, 9, 0].as_slice());
    Ok(())
}

#[test]
fn each_line_is_answered(rt: HostRuntime) -> Result<(), Fail> {
    let mut out = Vec::new(rt.alloc());
    let input = &b"one\n\ntwo\r\nthree"[..];
    answer_lines(rt.alloc(), input, &mut out, |line| {
        format!(in rt.alloc(); "<{line}>")
    })?;
    assert_eq!(rt; out.as_slice(), b"<one>\n<>\n<two>\n<three>\n".as_slice());
    Ok(())
}

#[test]
fn an_answer_and_its_line_break_are_one_write(rt: HostRuntime) -> Result<(), Fail> {
    let mut counter = Counter { writes: 0 };
    let input = &b"one\n\na longer line, and the last"[..];
    answer_lines(rt.alloc(), input, &mut counter, |line| {
        format!(in rt.alloc(); "<{line}>")
    })?;
    assert_eq!(rt; counter.writes, 3);
    Ok(())
}
