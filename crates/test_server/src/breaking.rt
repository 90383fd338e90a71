//! Devices of std's that break: a signal comes between, then a byte goes through, and then they fail.

ghost use Rattle.std.specs.Prelude.{◌≤◌, IfOk};

use devices::{CountedReader, CountedWriter, Failed, Writer, next_byte, write_all};
use std::io::{self, ErrorKind, Read, Write};

/// A device of std's: a signal comes between, then it gives or takes a byte, and then it fails.
#[derive(Drop)]
struct Breaking {
    calls: u32,
}

impl Breaking {
    fn call(&mut self, most: usize) -> io::Result<usize>
        ensures { IfOk result (λ n. n ≤ most) }
    {
        self.calls = self.calls.saturating_add(1);
        match self.calls {
            1 => Err(ErrorKind::Interrupted.into()),
            2 => Ok(most.min(1)),
            _ => Err(ErrorKind::BrokenPipe.into()),
        }
    }
}

impl Read for Breaking {
    fn read(&mut self, buffer: &mut [u8]) -> io::Result<usize> {
        self.call(buffer.len())
    }
}

impl Write for Breaking {
    fn write(&mut self, bytes: &[u8]) -> io::Result<usize> {
        self.call(bytes.len())
    }

    fn flush(&mut self) -> io::Result<()> {
        self.call(0)?;
        Ok(())
    }
}

#[test]
fn std_devices_may_break(rt: HostRuntime) {
    let mut reader = CountedReader::new(Breaking { calls: 0 });
    assert!(rt; next_byte(&mut reader) == Ok(Some(0)));
    assert!(rt; next_byte(&mut reader) == Err(Failed));
    let mut writer = CountedWriter::new(Breaking { calls: 0 });
    assert!(rt; write_all(&mut writer, b"ab") == Err(Failed));
    assert!(rt; writer.flush() == Err(Failed));
}
