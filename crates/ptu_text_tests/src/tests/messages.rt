ghost use Rattle.std.specs.Prelude.{◌≡◌, pos};

use ptu_messages::{
    AnnounceBody, Body, Header, HeaderFault, Message, MessageFault, PortIdentity, TlvFault,
    TlvList, read_message, write_fixed, write_signaling,
};
use ptu_units::Stamp;
use std::alloc::Global;
use std::process::Abort;
use std::test::Fail;

const CLIENT: PortIdentity = PortIdentity {
    clock: 0x0a00000000000011,
    port: 1,
};

const GRANDMASTER: PortIdentity = PortIdentity {
    clock: 0x0a00000000000001,
    port: 1,
};

// A Sync with what is left of an array behind it, and an Announce.
const SYNC: [u8; 64] = [
    0x00, 0x12, 0x00, 0x2c, 0x04, 0x00, 0x04, 0x00, 0x00, 0x00, 0x00, 0x00, 0x00, 0x00, 0x00, 0x00,
    0x00, 0x00, 0x00, 0x00, 0x0a, 0x00, 0x00, 0x00, 0x00, 0x00, 0x00, 0x01, 0x00, 0x01, 0x00, 0x00,
    0x00, 0x7f, 0x00, 0x00, 0x00, 0x00, 0x00, 0x01, 0x00, 0x00, 0x00, 0x00, 0xdd, 0xdd, 0xdd, 0xdd,
    0xdd, 0xdd, 0xdd, 0xdd, 0xdd, 0xdd, 0xdd, 0xdd, 0xdd, 0xdd, 0xdd, 0xdd, 0xdd, 0xdd, 0xdd, 0xdd,
];

const ANNOUNCE: [u8; 64] = [
    0x0b, 0x12, 0x00, 0x40, 0x04, 0x00, 0x04, 0x00, 0x00, 0x00, 0x00, 0x00, 0x00, 0x00, 0x00, 0x00,
    0x00, 0x00, 0x00, 0x00, 0x0a, 0x00, 0x00, 0x00, 0x00, 0x00, 0x00, 0x01, 0x00, 0x01, 0x00, 0x00,
    0x05, 0x7f, 0x00, 0x00, 0x00, 0x00, 0x00, 0x02, 0x00, 0x0f, 0x42, 0x40, 0x00, 0x00, 0x00, 0x80,
    0x54, 0xfe, 0xff, 0xff, 0x80, 0x0a, 0x00, 0x00, 0x00, 0x00, 0x00, 0x00, 0x01, 0x00, 0x00, 0xa0,
];

// A header in domain 4 with the unicastFlag alone.
fn header(message_type: u8, source: PortIdentity, sequence: u16) -> Header
    ensures { result ≡ record {
      message_type = message_type;
      domain = 4;
      flags = 0x0400;
      correction = pos 0;
      source = source;
      sequence = sequence;
    } }
{
    Header {
        message_type,
        domain: 4,
        flags: 0x0400,
        correction: 0,
        source,
        sequence,
    }
}

// Asserts that the octets are read as this message, whatever follows.
fn assert_read(
    rt: &impl Abort,
    alloc: Global,
    message: &Message,
    octets: &[u8],
) -> Result<(), Fail> {
    let wanted = format!(in alloc; "{message:?}")?;
    let mut whole = Vec::from_slice(alloc, octets)?;
    for _ in 0..2 {
        let read = read_message(alloc, &whole)?;
        let found = format!(in alloc; "{read:?}")?;
        assert_eq!(rt; found.as_str(), wanted.as_str());
        whole.push(0xee)?;
    }
    Ok(())
}

#[test]
fn a_sync_leaves_the_rest(rt: HostRuntime) {
    let sync = Message {
        header: header(0, GRANDMASTER, 0),
        body: Body::Sync(Stamp {
            seconds: 1,
            nanos: 0,
        }),
    };
    let mut out = [0xdd; 64];
    let size = write_fixed(&sync, &mut out);
    assert!(rt; size == 44 && out == SYNC);
}

#[test]
fn an_announce_is_read(rt: HostRuntime) -> Result<(), Fail> {
    let announce = Message {
        header: header(11, GRANDMASTER, 0),
        body: Body::Announce(AnnounceBody {
            origin: Stamp {
                seconds: 2,
                nanos: 1_000_000,
            },
            utc_offset: 0,
            priority1: 128,
            class: 84,
            accuracy: 0xfe,
            variance: 0xffff,
            priority2: 128,
            grandmaster: 0x0a00000000000001,
            steps: 0,
            time_source: 0xa0,
        }),
    };
    assert_read(&rt, rt.alloc(), &announce, &ANNOUNCE)
}

// Nothing in the program sends one.
#[test]
fn a_signaling_without_tlvs(rt: HostRuntime) -> Result<(), Fail> {
    let alloc = rt.alloc();
    let header = header(12, CLIENT, 0);
    let target = PortIdentity {
        clock: u64::MAX,
        port: u16::MAX,
    };
    let mut out = [0xdd; 428];
    let size = write_signaling(&header, &target, &[], &mut out);
    assert_eq!(rt; size, 44);
    let none = Message {
        header,
        body: Body::Signaling(target, TlvList::new(Vec::new(alloc))),
    };
    assert_read(&rt, alloc, &none, out.get(..size).unwrap_or(&[]))
}

// The text of the fault is this.
fn assert_named(
    rt: &impl Abort,
    alloc: Global,
    fault: &MessageFault,
    name: &str,
) -> Result<(), Fail> {
    let text = format!(in alloc; "{fault}")?;
    assert_eq!(rt; text.as_str(), name);
    Ok(())
}

#[test]
fn faults_are_named(rt: HostRuntime) -> Result<(), Fail> {
    let header = MessageFault::Header(HeaderFault::Length { said: 55, have: 54 });
    assert_named(
        &rt,
        rt.alloc(),
        &header,
        "messageLength is 55 and not from 34 to 54",
    )?;
    let fault = TlvFault::Overrun { said: 6, have: 5 };
    let tlv = MessageFault::Tlv { at: 44, fault };
    let name = "TLV at octet 44: lengthField is 6 where 5 octets follow";
    assert_named(&rt, rt.alloc(), &tlv, name)
}
