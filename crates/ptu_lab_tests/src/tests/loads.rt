ghost use Rattle.std.specs.Prelude.{◌≤◌};

use ptu_outside::MemSink;
use ptu_show::generate;
use std::alloc::Global;
use std::test::Fail;

// The line in which the first client asks.
const FIRST_ASK: &str = "\
    rx 0 10.0.0.1 10.1.0.0 0c120036040004000000000000000000000000000b00000000000000000100000\
    57fffffffffffffffffffff0004000600010000012c\n";

// The script of a load.
fn script(alloc: Global, number: u64) -> Result<String, Fail>
    requires least { 1 ≤ number }
    requires most { number ≤ 2000 }
{
    let mut sink = MemSink::new(alloc, Vec::new(alloc));
    generate(alloc, number, &mut sink).ok().ok_or("a script")?;
    let text = String::from_utf8(sink.into_bytes());
    Ok(text.ok().ok_or("plain text")?)
}

#[test]
fn the_script_of_one_client(rt: HostRuntime) -> Result<(), Fail> {
    let alloc = rt.alloc();
    let mut wanted = String::new(alloc);
    wanted.push_str("gm 10.0.0.1 0a00000000000001 1 4 84 16 300\n")?;
    wanted.push_str(FIRST_ASK)?;
    for moment in 1..9 {
        for table in 0..4 {
            let line = format!(in alloc; "turn {moment}000000000 10.0.0.1 {table}\n")?;
            wanted.push_str(line.as_str())?;
        }
    }
    assert_eq!(rt; script(alloc, 1)?.as_str(), wanted.as_str());
    Ok(())
}
