use super::*;
use std::cell::RefCell;
use std::fmt::Display;
use std::test::Fail;

// An output that keeps what it is given.
#[derive(Drop)]
struct Kept(RefCell<Vec<u8>>);

impl Print for Kept {
    fn print<D: Display + Drop>(&self, value: D) -> io::Result<()> {
        let mut kept = self.0.try_borrow_mut()?;
        write!(*kept, "{value}")
    }

    fn println<D: Display + Drop>(&self, value: D) -> io::Result<()> {
        let mut kept = self.0.try_borrow_mut()?;
        writeln!(*kept, "{value}")
    }

    fn write_all(&self, bytes: &[u8]) -> io::Result<()> {
        let mut kept = self.0.try_borrow_mut()?;
        Write::write_all(&mut *kept, bytes)
    }
}

// Decimal, hexadecimal at each kind of width, and a line that tells a refusal.
#[test]
fn prints(rt: HostRuntime) -> Result<(), Fail> {
    let out = Kept(RefCell::new(Vec::new(rt.alloc())));
    print_decimal(&out, 0);
    print_decimal(&out, 18446744073709551615);
    print_hex(&out, 0, 0);
    print_hex(&out, 2748, 2);
    print_hex(&out, 2748, 4);
    print_hex(&out, 2748, 17);
    fail(&out, b"a.load", io::Error::from_raw_os_error(2));
    let kept = out.0.try_borrow_mut()?;
    let said = b"0184467440737095516150abc0abc0000000000000abca.load: No such file or directory\n";
    assert_eq!(rt; kept.as_slice(), said.as_slice());
    Ok(())
}

// Short reads are gone on with, and the end of the input ends.
#[test]
fn reads(rt: HostRuntime) -> Result<(), Fail> {
    let mut from = b"abc".chain(b"de".as_slice());
    let mut buf = [0u8; 4];
    assert_eq!(rt; read_full(&mut from, &mut buf), 4);
    assert_eq!(rt; buf, *b"abcd");
    assert!(rt; !has_ended(&mut from));
    assert!(rt; has_ended(&mut from));
    assert_eq!(rt; read_full(&mut from, &mut buf), 0);
    Ok(())
}

// A file that is not there, a name with a zero in it, and a name that is no text.
#[test]
fn refuses(rt: HostRuntime) -> Result<(), Fail> {
    let mut buf = [0u8; 4];
    for (name, number) in [
        (b"none/here", 2),
        (b"none\0here", 22),
        (b"none\xffhere", 84),
    ] {
        match read_file(&rt, name, &mut buf) {
            Ok(_) => assert!(rt; false, "opened"),
            Err(error) => assert_eq!(rt; error.raw_os_error(), Some(number)),
        }
    }
    Ok(())
}

// A test has its program's name for an argument, and no more.
#[test]
fn counts_arguments(rt: HostRuntime) -> Result<(), Fail> {
    let mut buf = [0u8; 1];
    let n = arg_count(&rt);
    assert!(rt; 0 < n);
    assert_eq!(rt; arg(&rt, n, &mut buf), 0);
    Ok(())
}
