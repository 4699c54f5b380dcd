// That the definition is the generator in use: the numbers are those that a program in another language drew.
use crate::Draws;

/// A seed, the sizes of three draws, and the numbers that are drawn.
const DRAWN: [(u64, [u32; 3], [u32; 3]); 3] = [
    (7, [150, 150, 150], [128, 131, 3]),
    (1, [10, 1000, 4_294_967_295], [4, 153, 1_392_341_196]),
    (u64::MAX, [1, 2, 2_147_483_648], [0, 1, 1_207_502_677]),
];

#[test]
fn a_seed_draws_the_numbers_that_are_known(rt: HostRuntime) {
    for (seed, sizes, numbers) in DRAWN {
        let mut draws = Draws::seeded(seed);
        for place in 0..3 {
            let size = sizes[place];
            assert!(rt; size > 0);
            assert_eq!(rt; draws.draw(size), numbers[place], "draw {place} of {seed}");
        }
    }
}
