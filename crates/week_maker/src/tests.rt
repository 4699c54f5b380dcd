// What no clause says: that a week is made where there is memory, and that the definition is that of the texts in use.
use crate::make_week;
use std::test::Fail;

// The lengths and digests of texts that a program in another language made by the same rules.
const MADE: [(u64, usize, u32); 6] = [
    (1, 4863, 2_420_134_288),
    (2, 4863, 113_113_919),
    (3, 4848, 2_439_814_362),
    (7, 4861, 1_723_427_943),
    (0, 4856, 575_872_695),
    (u64::MAX, 4858, 2_412_897_842),
];

// Seed 7 draws 128, 131 and 3 of 150 first: the legs from the depot take 158, 161 and 33 minutes.
const BEGINNING: &[u8] = b"week,2026-03-02,15,3000,60
place,HUB
place,P1
place,P2
place,P3
place,P4
place,P5
place,P6
place,P7
place,P8
place,P9
place,P10
place,P11
place,P12
leg,HUB,P1,158,6320
leg,P1,HUB,158,6320
leg,HUB,P2,161,6440
leg,P2,HUB,161,6440
leg,HUB,P3,33,1320
leg,P3,HUB,33,1320
";

const END: &[u8] = b"order,O40,P6,2026-03-04T06:30,2026-03-04T08:30,45,8000,65500\n";

fn digest(text: &[u8]) -> u32 {
    let mut sum = 0u32;
    for byte in text {
        sum = sum.wrapping_mul(31).wrapping_add(u32::from(*byte));
    }
    sum
}

#[test]
fn a_seed_makes_the_text_that_is_known(rt: HostRuntime) -> Result<(), Fail> {
    for (seed, length, known) in MADE {
        let text = make_week(rt.alloc(), seed).map_err(|_| "memory")?;
        let bytes = text.as_slice();
        assert_eq!(rt; bytes.len(), length, "at {seed}");
        assert_eq!(rt; digest(bytes), known, "at {seed}");
        let rows = bytes.iter().filter(|byte| **byte == b'\n').count();
        assert_eq!(rt; rows, 148, "at {seed}");
        if seed == 7 {
            assert!(rt; bytes.starts_with(BEGINNING) && bytes.ends_with(END));
        }
    }
    Ok(())
}
