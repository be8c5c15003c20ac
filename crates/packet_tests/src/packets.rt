use body::CallCode;
use listed::Listed;
use packet::{Head, Message};
use packet_read::read;
use packet_write::pack;
use std::process::Abort;
use std::test::Fail;
use tally::{Pair, Tally};

// Station 2 sends call code 500 from handset 5 to handset 9, as message 291 = 1 * 256 + 35, knowing of 3 messages from station 0.
const HEAD: Head = Head {
    station: 2,
    sender: 5,
    addressee: 9,
    name: 291,
};

fn tag(rt: &impl Abort) -> Listed {
    let mut tag = Listed::blank();
    let sent = tag.raise(
        Pair {
            station: 0,
            handset: 9,
        },
        3,
    );
    assert!(rt; sent.is_ok());
    tag
}

// the packet's 20 bytes
fn bytes() -> [u8; 20] {
    [
        b'N', b'R', b'S', 0, 1, 1, 2, 5, 9, 1, 35, 0, 1, 0, 9, 0, 3, 2, 1, 244,
    ]
}

#[test]
fn packs(rt: HostRuntime) -> Result<(), Fail> {
    let message = Message::new(HEAD, tag(&rt), CallCode { value: 500 }).ok_or("out of range")?;
    // what lies behind the packet is kept
    let mut out = [7; 22];
    assert_eq!(rt; pack(&message, &mut out), Ok(20));
    assert!(rt; out[..20] == bytes()[..]);
    assert!(rt; out[20..] == [7, 7]);
    Ok(())
}

#[test]
fn wants_a_buffer_long_enough(rt: HostRuntime) -> Result<(), Fail> {
    let message = Message::new(HEAD, tag(&rt), CallCode { value: 500 }).ok_or("out of range")?;
    let mut out = [7; 19];
    let fault = pack(&message, &mut out).err().ok_or("it was granted")?;
    assert_eq!(rt; fault.number(), 40);
    assert!(rt; out == [7; 19]);
    Ok(())
}

#[test]
fn reads(rt: HostRuntime) -> Result<(), Fail> {
    let Ok(message) = read::<Listed, CallCode>(&bytes()) else {
        return Err(Fail::new("it was refused"));
    };
    assert_eq!(rt; message.head(), HEAD);
    assert_eq!(rt; message.body().value, 500);
    let sent = message.tag().count(Pair {
        station: 0,
        handset: 9,
    });
    assert_eq!(rt; sent, 3);
    Ok(())
}

// A handset does not write to itself, and there is no ninth station.
#[test]
fn only_messages_in_range(rt: HostRuntime) {
    for head in [
        Head {
            addressee: 5,
            ..HEAD
        },
        Head { station: 8, ..HEAD },
    ] {
        assert!(rt; Message::new(head, tag(&rt), CallCode { value: 500 }).is_none());
    }
}
