//! Files with records: in any order, and those refused at one.
use crate::test_files::{accepted, refusal};
use ciff_format::Cause;
use std::test::Fail;

#[test]
fn records_in_any_order(rt: HostRuntime) -> Result<(), Fail> {
    let alloc = rt.alloc();
    // The message of each record behind its length.
    let records: [[u8; 8]; 4] = [
        [0x07, 0x08, 0x00, 0x12, 0x01, 0x61, 0x18, 0x05],
        [0x07, 0x08, 0x01, 0x12, 0x01, 0x62, 0x18, 0x06],
        [0x07, 0x08, 0x02, 0x12, 0x01, 0x63, 0x18, 0x07],
        [0x07, 0x08, 0x03, 0x12, 0x01, 0x64, 0x18, 0x08],
    ];
    let orders: [[usize; 4]; 5] = [
        [0, 1, 2, 3],
        [3, 2, 1, 0],
        [1, 0, 3, 2],
        [2, 3, 0, 1],
        [0, 3, 1, 2],
    ];
    for (row, order) in orders.iter().enumerate() {
        let mut file = [0x02, 0x18, 0x04].to_vec(alloc)?;
        for doc in order.iter() {
            if let Some(record) = records.get(*doc) {
                file.extend_from_slice(record)?;
            }
        }
        for most in [1, 65536] {
            let got = accepted(alloc, &file, most)?;
            let expected = "0 0 0 0 0  / a 5 / b 6 / c 7 / d 8";
            assert_eq!(rt; got.as_str(), expected, "row {row}");
        }
    }
    Ok(())
}

#[test]
fn refused_at_a_record(rt: HostRuntime) -> Result<(), Fail> {
    let alloc = rt.alloc();
    let rows: [(&[u8], u64, Cause); 10] = [
        // The number of an earlier record, which stands already or waits.
        (&[0x02, 0x18, 0x02, 0x00, 0x00], 4, Cause::BadDoc),
        (
            &[0x02, 0x18, 0x02, 0x02, 0x08, 0x01, 0x02, 0x08, 0x01],
            6,
            Cause::BadDoc,
        ),
        (
            &[0x02, 0x18, 0x03, 0x02, 0x08, 0x01, 0x00, 0x02, 0x08, 0x01],
            7,
            Cause::BadDoc,
        ),
        // The number of documents, and -1.
        (&[0x02, 0x18, 0x01, 0x02, 0x08, 0x01], 3, Cause::BadDoc),
        (
            &[0x02, 0x18, 0x01, 0x06, 0x08, 0xff, 0xff, 0xff, 0xff, 0x0f],
            3,
            Cause::BadDoc,
        ),
        // A name that isn't UTF-8, with a bad number, before a good one, and behind it.
        (
            &[0x02, 0x18, 0x01, 0x05, 0x08, 0x01, 0x12, 0x01, 0x80],
            3,
            Cause::BadText,
        ),
        (
            &[0x02, 0x18, 0x01, 0x06, 0x12, 0x01, 0x80, 0x12, 0x01, 0x61],
            3,
            Cause::BadText,
        ),
        (
            &[0x02, 0x18, 0x01, 0x06, 0x12, 0x01, 0x61, 0x12, 0x01, 0x80],
            3,
            Cause::BadText,
        ),
        // A length that is eight bytes, and a record that isn't there.
        (
            &[
                0x02, 0x18, 0x01, 0x09, 0x19, 0x00, 0x00, 0x00, 0x00, 0x00, 0x00, 0x00, 0x00,
            ],
            3,
            Cause::BadField,
        ),
        (&[0x02, 0x18, 0x02, 0x00], 4, Cause::CutShort),
    ];
    for (row, (file, place, cause)) in rows.iter().enumerate() {
        for most in [1, 65536] {
            let got = refusal(alloc, file, most)?;
            assert_eq!(rt; got, Some((*place, *cause)), "row {row}");
        }
    }
    Ok(())
}
