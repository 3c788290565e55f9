use ptu_audit_lines::read_line;
use std::test::Fail;

// Lines, and what they say, as `Debug` writes it.
const LINES: [(&str, &str); 4] = [
    (
        "3 send 2 10.0.0.1 10.0.1.17 event 0cff",
        "Some(At { number: 3, entry: Send { number: 2, from: 167772161, to: 167772433, \
         octets: LentOctets { octets: [12, 255] } } })",
    ),
    (
        "3 shed sync -7 10.0.1.18 0a00000000000012/1",
        "Some(At { number: 3, entry: Shed { kind: Sync, log: Log { value: -7 }, \
         client: Client { ip: 167772434, clock: 720575940379279378, \
         port: 1 } } })",
    ),
    (
        "2 outside log announce -4",
        "Some(At { number: 2, entry: Decided(OutsideLog { kind: Announce, log: -4 }) })",
    ),
    ("end 9 4", "Some(End { lines: 9, datagrams: 4 })"),
];

#[test]
fn lines_are_read(rt: HostRuntime) -> Result<(), Fail> {
    let alloc = rt.alloc();
    let mut buffer = [0; 2048];
    for (line, said) in LINES {
        let read = format!(in alloc; "{:?}", read_line(line.as_bytes(), &mut buffer))?;
        assert_eq!(rt; read.as_str(), said);
    }
    Ok(())
}
