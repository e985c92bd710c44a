//! Rows of `copy` on each file that differs from `ONE` in one byte. The expected sums were made by a
//! reader and writer in another language.
use rgb_runs::{ALL_WELL, ONE, bytes_of, run};
use std::test::Fail;
use std::thread::Threads;

/// For each place, the sum of what becomes of the 256 files with another byte there.
const SUMS: [u64; 25] = [
    0x02c1_ae93_aef4_2b0d,
    0x24ef_25a5_c470_03b5,
    0xcd28_f7a3_acc4_1b67,
    0x6b39_1a4f_8444_e84e,
    0xb484_d5a1_04aa_acb3,
    0x2b14_7f5c_63fd_98c2,
    0xc30a_184a_d34a_d47b,
    0xd000_7fea_452d_6e54,
    0x5808_c915_00c0_d666,
    0xb4ba_5d74_3090_7071,
    0x0768_6037_4528_0a25,
    0x8916_b37b_afef_479d,
    0xcb8b_a669_da3b_76c3,
    0xf1de_be46_51c0_8a23,
    0x2b8f_d037_95c4_c673,
    0x1a12_624b_55e3_d38f,
    0x02bd_de79_f1cd_a32c,
    0xd751_ff7b_673b_d2b3,
    0xd095_552d_f25d_6171,
    0x7ed1_9e7a_822d_b8b9,
    0xa36f_3524_49f2_eb62,
    0x098b_14a6_1e90_dd31,
    0x4970_9037_5fdd_57a5,
    0x9e17_282b_c514_e4f8,
    0x3c81_5d1f_008c_8e6f,
];

// The 64-bit FNV-1a sum, with these bytes taken in.
fn with_bytes(sum: u64, bytes: &[u8]) -> u64 {
    bytes.iter().fold(sum, |sum, byte| {
        (sum ^ u64::from(*byte)).wrapping_mul(0x100_0000_01b3)
    })
}

// What becomes of the files with each byte at this place: OUT, or else the line that is warned.
fn sum_at<R: Threads + Sync + AllocGlobal>(rt: &R, one: &[u8], place: usize) -> Result<u64, Fail> {
    let mut sum = 0xcbf2_9ce4_8422_2325;
    for byte in 0..=255 {
        let mut bytes = one.to_vec(rt.alloc())?;
        for changed in bytes.iter_mut().skip(place).take(1) {
            *changed = byte;
        }
        let (_status, host) = run(rt, "copy in out", &bytes, ALL_WELL)?;
        let became = host.file("out").unwrap_or(host.warned());
        sum = with_bytes(sum, became);
    }
    Ok(sum)
}

// The first of these places at which another sum was wanted.
fn first_other_sum<R: Threads + Sync + AllocGlobal>(
    rt: &R,
    places: std::ops::Range<usize>,
) -> Result<Option<usize>, Fail> {
    let one = bytes_of(rt.alloc(), ONE)?;
    for place in places {
        if SUMS.get(place).copied() != Some(sum_at(rt, &one, place)?) {
            return Ok(Some(place));
        }
    }
    Ok(None)
}

#[test]
fn each_byte_of_the_header(rt: HostRuntime) -> Result<(), Fail> {
    assert_eq!(rt; first_other_sum(&rt, 0..7)?, None);
    Ok(())
}

#[test]
fn each_byte_of_the_term(rt: HostRuntime) -> Result<(), Fail> {
    assert_eq!(rt; first_other_sum(&rt, 7..13)?, None);
    Ok(())
}

#[test]
fn each_byte_of_the_posting(rt: HostRuntime) -> Result<(), Fail> {
    assert_eq!(rt; first_other_sum(&rt, 13..19)?, None);
    Ok(())
}

#[test]
fn each_byte_of_the_record(rt: HostRuntime) -> Result<(), Fail> {
    assert_eq!(rt; first_other_sum(&rt, 19..25)?, None);
    Ok(())
}
