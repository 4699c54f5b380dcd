// Prices that move, by hand.
use crate::subgradient_step;

/// A round, what a subcontractor takes, the number of carriers, the price before and the price after, all in cents. The
/// step is a quarter of what the subcontractor takes in round 0, an eighth in round 1, and at least a cent.
const MOVES: [(u32, u64, u32, u64, u64); 9] = [
    (0, 9000, 2, 9000, 6750),
    (0, 9000, 0, 9000, 9000),
    (0, 9000, 1, 4000, 4000),
    (0, 9000, 0, 6000, 8250),
    (0, 9000, 3, 9000, 4500),
    (0, 9000, 9, 9000, 0),
    (1, 9000, 2, 9000, 7875),
    (99, 100, 0, 50, 51),
    (4_294_967_295, 100_000_000, 4_294_967_295, 100_000_000, 0),
];

#[test]
fn a_price_rises_where_nobody_carries_and_falls_where_two_do(rt: HostRuntime) {
    for (k, most, count, price, next) in MOVES {
        assert!(rt; most <= 100_000_000 && price <= most);
        assert_eq!(rt;
            subgradient_step(k, most, count, price),
            next,
            "after round {k}: {price} of {most}, carried {count} times"
        );
    }
}
