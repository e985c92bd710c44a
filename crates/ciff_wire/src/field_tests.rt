//! Fields and faults at the front of bytes, by hand from the encoding's rules.
use crate::{Content, Field, FieldFault, next_field};

#[test]
fn takes_numbers(rt: HostRuntime) {
    // the bytes, the field number, the number that it holds, the bytes that it takes
    let rows: [(&[u8], u32, u64, usize); 11] = [
        (b"\x08\x05", 1, 5, 2),
        (b"\x08\xac\x02\xff", 1, 300, 3),
        (b"\x08\x80\x00", 1, 0, 3),
        (
            b"\x08\xff\xff\xff\xff\xff\xff\xff\xff\xff\x01",
            1,
            u64::MAX,
            11,
        ),
        // of a tenth byte the lowest bit counts alone
        (
            b"\x38\xff\xff\xff\xff\xff\xff\xff\xff\xff\x7f",
            7,
            u64::MAX,
            11,
        ),
        (b"\x38\x81\x80\x80\x80\x80\x80\x80\x80\x80\x7e", 7, 1, 11),
        (b"\x78\x01", 15, 1, 2),
        (b"\x80\x01\x02", 16, 2, 3),
        (b"\xf8\xff\xff\xff\x0f\x01", 536870911, 1, 6),
        // tags that are not minimal
        (b"\x88\x80\x80\x80\x80\x80\x80\x80\x80\x00\x07", 1, 7, 11),
        (b"\x88\x80\x80\x80\x80\x80\x80\x80\x80\x7e\x07", 1, 7, 11),
    ];
    for (bytes, number, value, used) in rows {
        let content = Content::Number(value);
        assert_eq!(rt;
            next_field(bytes),
            Ok(Some((Field { number, content }, used)))
        );
    }
}

#[test]
fn takes_bytes(rt: HostRuntime) {
    // the bytes, the field number, the bytes that it holds, the bytes that it takes
    let rows: [(&[u8], u32, &[u8], usize); 6] = [
        (b"\x12\x00", 2, b"", 2),
        (b"\x12\x02hi", 2, b"hi", 4),
        (b"\x12\x02high", 2, b"hi", 4),
        (b"\x12\x82\x80\x00hi", 2, b"hi", 6),
        (b"\x92\x00\x01A", 2, b"A", 4),
        (b"\xfa\xff\xff\xff\x0f\x01A", 536870911, b"A", 7),
    ];
    for (bytes, number, held, used) in rows {
        let content = Content::Bytes(held);
        assert_eq!(rt;
            next_field(bytes),
            Ok(Some((Field { number, content }, used)))
        );
    }
}

#[test]
fn takes_fixed_numbers(rt: HostRuntime) {
    let rows: [(&[u8], u32, Content, usize); 4] = [
        (
            b"\x09\x01\x02\x03\x04\x05\x06\x07\x08",
            1,
            Content::Eight(0x0807060504030201),
            9,
        ),
        // 20.0 as a double
        (
            b"\x39\0\0\0\0\0\0\x34\x40\xff",
            7,
            Content::Eight(0x4034000000000000),
            9,
        ),
        (b"\x0d\x01\x02\x03\x04", 1, Content::Four(0x04030201), 5),
        (b"\x7d\xff\xff\xff\xff\xff", 15, Content::Four(u32::MAX), 5),
    ];
    for (bytes, number, content, used) in rows {
        assert_eq!(rt;
            next_field(bytes),
            Ok(Some((Field { number, content }, used)))
        );
    }
    assert_eq!(rt; next_field(b""), Ok(None));
}

#[test]
fn finds_faults_of_tags(rt: HostRuntime) {
    let rows: [(&[u8], FieldFault); 18] = [
        (b"\x80", FieldFault::PastEnd),
        (b"\xff\xff\xff\xff\xff\xff\xff\xff\xff", FieldFault::PastEnd),
        (
            b"\x80\x80\x80\x80\x80\x80\x80\x80\x80\x80",
            FieldFault::Long,
        ),
        (
            b"\xff\xff\xff\xff\xff\xff\xff\xff\xff\xff\x01",
            FieldFault::Long,
        ),
        (b"\x00", FieldFault::Zero),
        (b"\x80\x00", FieldFault::Zero),
        (b"\x03", FieldFault::Zero),
        (b"\x07", FieldFault::Zero),
        (b"\x80\x80\x80\x80\x10\x01", FieldFault::TooLarge),
        (b"\x83\x80\x80\x80\x10", FieldFault::TooLarge),
        (b"\x87\x80\x80\x80\x10", FieldFault::TooLarge),
        (
            b"\xff\xff\xff\xff\xff\xff\xff\xff\xff\x01",
            FieldFault::TooLarge,
        ),
        (b"\x0b", FieldFault::Group),
        (b"\x0c", FieldFault::Group),
        (b"\x8b\x00", FieldFault::Group),
        (b"\x0e", FieldFault::Reserved),
        (b"\x0f", FieldFault::Reserved),
        (b"\xff\xff\xff\xff\x0f", FieldFault::Reserved),
    ];
    for (bytes, fault) in rows {
        assert_eq!(rt; next_field(bytes), Err(fault));
    }
}

#[test]
fn finds_faults_of_contents(rt: HostRuntime) {
    let rows: [(&[u8], FieldFault); 13] = [
        (b"\x08", FieldFault::PastEnd),
        (b"\x08\x80", FieldFault::PastEnd),
        (b"\x09\x01\x02\x03\x04\x05\x06\x07", FieldFault::PastEnd),
        (b"\x0a", FieldFault::PastEnd),
        (b"\x0a\x80", FieldFault::PastEnd),
        (b"\x0a\x01", FieldFault::PastEnd),
        (b"\x0a\x03hi", FieldFault::PastEnd),
        (b"\x0d\x01\x02\x03", FieldFault::PastEnd),
        // a length of 2^32 + 1, and one of 2^64 - 1
        (b"\x0a\x81\x80\x80\x80\x10A", FieldFault::PastEnd),
        (
            b"\x0a\xff\xff\xff\xff\xff\xff\xff\xff\xff\x01A",
            FieldFault::PastEnd,
        ),
        (
            b"\x88\x80\x80\x80\x80\x80\x80\x80\x80\x00",
            FieldFault::PastEnd,
        ),
        (
            b"\x08\x80\x80\x80\x80\x80\x80\x80\x80\x80\x80",
            FieldFault::Long,
        ),
        (
            b"\x0a\xff\xff\xff\xff\xff\xff\xff\xff\xff\xff\x00",
            FieldFault::Long,
        ),
    ];
    for (bytes, fault) in rows {
        assert_eq!(rt; next_field(bytes), Err(fault));
    }
}
