//! Varints against spellings that were worked out by hand.
use super::*;

const MAX: u64 = 0xffff_ffff_ffff_ffff;

const TOP: u64 = 0x8000_0000_0000_0000;

fn done(value: u64, used: usize) -> Varint {
    Varint::Done { value, used }
}

#[test]
fn reads(rt: HostRuntime) {
    let rows: [(&[u8], Varint); 11] = [
        (&[], Varint::Short),
        (&[0x80], Varint::Short),
        (&[0x80; 9], Varint::Short),
        (&[0x80; 10], Varint::Long),
        (&[0x80; 12], Varint::Long),
        (&[0x7f, 0xff], done(127, 1)),
        (&[0x80, 0], done(0, 2)),
        (&[0x80, 1], done(128, 2)),
        (&[0xac, 2, 7], done(300, 2)),
        (b"\xff\xff\xff\xff\xff\xff\xff\xff\xff\x01", done(MAX, 10)),
        // A tenth byte adds its lowest bit alone.
        (b"\x80\x80\x80\x80\x80\x80\x80\x80\x80\x7f", done(TOP, 10)),
    ];
    for (bytes, want) in rows {
        assert_eq!(rt; read_varint(bytes), want);
    }
}

#[test]
fn writes(rt: HostRuntime) {
    let rows: [(u64, &[u8]); 6] = [
        (0, &[0]),
        (127, &[0x7f]),
        (128, &[0x80, 1]),
        (300, &[0xac, 2]),
        (TOP, b"\x80\x80\x80\x80\x80\x80\x80\x80\x80\x01"),
        (MAX, b"\xff\xff\xff\xff\xff\xff\xff\xff\xff\x01"),
    ];
    for (value, want) in rows {
        let mut out = [0x55; 10];
        let used = put_varint(value, &mut out);
        assert_eq!(rt; &out[..used], want, "at {value}");
        assert_eq!(rt; varint_len(value), want.len(), "at {value}");
    }
}

#[test]
fn writes_tags(rt: HostRuntime) {
    let mut out = [0x55; 10];
    let used = put_tag(8, 2, &mut out);
    assert_eq!(rt; &out[..used], b"\x42".as_slice());
    let used = put_tag(0x1fff_ffff, 5, &mut out);
    assert_eq!(rt; &out[..used], b"\xfd\xff\xff\xff\x0f".as_slice());
}

#[test]
fn writes_numbers(rt: HostRuntime) {
    let rows: [(u32, i64, &[u8]); 4] = [
        (1, 0, &[]),
        (1, 1, &[8, 1]),
        (15, 300, &[0x78, 0xac, 2]),
        (2, -1, b"\x10\xff\xff\xff\xff\xff\xff\xff\xff\xff\x01"),
    ];
    for (number, value, want) in rows {
        assert!(rt; 0 < number && number < 16);
        let mut out = [0x55; 16];
        let used = put_number(number, value, &mut out);
        assert_eq!(rt; &out[..used], want, "at {value}");
    }
}

#[test]
fn writes_heads(rt: HostRuntime) {
    let mut out = [0x55; 16];
    let used = put_head(4, 300, &mut out);
    assert_eq!(rt; &out[..used], b"\x22\xac\x02".as_slice());
    let used = put_head(1, 0, &mut out);
    assert_eq!(rt; &out[..used], b"\x0a\x00".as_slice());
}

#[test]
fn takes_signs(rt: HostRuntime) {
    assert_eq!(rt; as_i32(0x1_0000_0005), 5);
    assert_eq!(rt; as_i32(0xffff_ffff), -1);
    assert_eq!(rt; as_i32(0x8000_0000), i32::MIN);
    assert_eq!(rt; as_i32(MAX), -1);
    assert_eq!(rt; as_i64(MAX), -1);
    assert_eq!(rt; as_i64(TOP), i64::MIN);
    assert_eq!(rt; as_i64(300), 300);
}
