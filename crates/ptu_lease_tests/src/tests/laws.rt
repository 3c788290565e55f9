use ptu_laws::most_messages;
use ptu_units::{Capacity, Moment};

// A capacity, a moment in nanoseconds, and the most messages until then.
const MOST: [(u64, u64, u64); 4] = [
    (16, 10_000_000_000, 10),
    (24, 1_500_000_000, 2),
    (1, 15_999_999_999, 0),
    (1, 16_000_000_000, 1),
];

#[test]
fn most_messages_of_a_link(rt: HostRuntime) {
    for (capacity, nanos, messages) in MOST {
        let capacity = Capacity::of(capacity).expect(&rt, "within its limits");
        let moment = Moment::of(nanos).expect(&rt, "below 2^62");
        assert_eq!(rt; most_messages(capacity, moment), messages);
    }
}
