// The bits of the orders served. Order n is the bit n, so that a number that holds some orders is written out by hand.
use duty_label::has_order;
use duty_plan::{Act, serves_anew, with_bit};

/// The bits of the orders 0, 63, 64 and 119.
const ALL: u128 = 0x80_0000_0000_0001_8000_0000_0000_0001;

// Each row is an order, its bit, and the bits of the other three.
#[test]
fn orders_0_63_64_and_119_have_bits_of_their_own(rt: HostRuntime) {
    let rows: [(u32, u128, u128); 4] = [
        (0, 0x1, 0x80_0000_0000_0001_8000_0000_0000_0000),
        (
            63,
            0x8000_0000_0000_0000,
            0x80_0000_0000_0001_0000_0000_0000_0001,
        ),
        (
            64,
            0x1_0000_0000_0000_0000,
            0x80_0000_0000_0000_8000_0000_0000_0001,
        ),
        (
            119,
            0x80_0000_0000_0000_0000_0000_0000_0000,
            0x1_8000_0000_0000_0001,
        ),
    ];
    for (order, bit, others) in rows {
        assert!(rt; order < 128);
        let serve = Act::Serve(order);
        assert_eq!(rt; with_bit(serve, 0), bit, "order {order}");
        assert_eq!(rt; with_bit(serve, others), ALL, "order {order}");
        assert!(rt; serves_anew(others, serve), "order {order}");
        assert!(rt; !serves_anew(bit, serve), "order {order}");
        assert!(rt; has_order(bit, order), "order {order}");
        assert!(rt; !has_order(others, order), "order {order}");
    }
}
