use body::{Body, CallCode, Note, ShortBuffer};
use std::test::Fail;

#[test]
fn call_codes(rt: HostRuntime) -> Result<(), Fail> {
    let code = CallCode { value: 500 };
    assert_eq!(rt; CallCode::kind(), 1);
    assert_eq!(rt; code.size(), 2);
    let mut out = [9, 9, 9];
    assert!(rt; code.write(&mut out).is_ok());
    // 500 = 1 * 256 + 244
    assert!(rt; out == [1, 244, 9]);
    assert_eq!(rt; code.write(&mut out[..1]), Err(ShortBuffer));
    assert!(rt; out == [1, 244, 9]);
    assert_eq!(rt; CallCode::read(&[1, 244]).ok_or("refused")?.value, 500);
    assert!(rt; CallCode::read(&[1]).is_none());
    assert!(rt; CallCode::read(&[1, 244, 0]).is_none());
    Ok(())
}

#[test]
fn notes(rt: HostRuntime) -> Result<(), Fail> {
    let note = Note::read(b"seen to").ok_or("refused")?;
    assert_eq!(rt; Note::kind(), 2);
    assert_eq!(rt; note.size(), 7);
    let mut out = [0; 9];
    assert!(rt; note.write(&mut out).is_ok());
    assert!(rt; &out[..] == b"seen to\0\0".as_slice());
    assert!(rt; Note::read(b"").is_some());
    assert!(rt; Note::read(b"abcdefghijklmnopqrstuvwx").is_some());
    assert!(rt; Note::read(b"abcdefghijklmnopqrstuvwxy").is_none());
    assert!(rt; Note::read(b" ~").is_some());
    assert!(rt; Note::read(b"a\n").is_none());
    assert!(rt; Note::read(b"\x7f").is_none());
    Ok(())
}
