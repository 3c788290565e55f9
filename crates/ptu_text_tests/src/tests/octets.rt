use ptu_units::{
    high_nibble, i16_at, i64_at, low_nibble, u16_at, u32_at, u48_at, u48_octets, u64_at,
};

#[test]
fn numbers_stand_in_their_octets(rt: HostRuntime) {
    let octets = [0x0a, 0x00, 0x00, 0x00, 0x00, 0x0f, 0x42, 0x40, 0xff];
    let read = (
        u16_at(&octets, 6),
        u32_at(&octets, 4),
        u48_at(&octets, 3),
        u64_at(&octets, 0),
        i16_at(&octets, 7),
        i64_at(&octets, 1),
        high_nibble(&octets, 7),
        low_nibble(&octets, 0),
    );
    let wanted = (
        0x4240,
        1_000_000,
        0x0f_4240ff,
        0x0a00_0000_000f_4240,
        0x40ff,
        0x0f_4240ff,
        4,
        10,
    );
    assert_eq!(rt; read, wanted);
    assert_eq!(rt; u48_octets(0x0f_4240ff), [0, 0, 0x0f, 0x42, 0x40, 0xff]);
}
