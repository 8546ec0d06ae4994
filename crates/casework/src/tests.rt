use super::*;
use std::io::Write;
use std::test::Fail;

#[test]
fn cases_come_in_order(rt: HostRuntime) -> Result<(), Fail> {
    fs::write(&rt, "cases", b"\x01\x00\x00\x00\x02\x00\x00\x00\x03")?;
    let mut found = Vec::new(rt.alloc());
    each_case(&rt, "cases", |file| match number(file) {
        Some(n) => Ok(Some(writeln!(found, "{n}")?)),
        None => Ok(None),
    })?;
    fs::remove_file(&rt, "cases")?;
    assert_eq!(rt; found.as_slice(), b"1\n2\n".as_slice());
    Ok(())
}

#[test]
fn no_file_has_no_case(rt: HostRuntime) -> Result<(), Fail> {
    let mut any = false;
    each_case(&rt, "none", |_| {
        any = true;
        Ok(None)
    })?;
    assert!(rt; !any);
    Ok(())
}
