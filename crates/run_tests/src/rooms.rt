// Tables of other lengths: those in which no run starts, and those in which a started run is not called.
use crate::scenario::Call::{Elsewhere, No, Run};
use crate::scenario::Under::{Listing, Sheet};
use crate::scenario::{End, Scenario};
use calculus::stop::StopCause::Value;

pub static ROOMS: [Scenario; 8] = [
    Scenario {
        title: "other tables than the run's",
        rule: "AP LA0 SU VA0 ZE",
        front: 5,
        back: 5,
        calls: &[
            Elsewhere(4, 5),
            Elsewhere(5, 4),
            Elsewhere(5, 6),
            Elsewhere(6, 5),
            Elsewhere(6, 6),
            Elsewhere(0, 0),
            Run(9, Listing, Value, 1, 1, "SU ZE"),
            Elsewhere(2, 2),
        ],
        end: End::Decided(2, 1, 0),
    },
    Scenario {
        title: "the longest tables",
        rule: "AP LA0 SU VA0 ZE",
        front: 4096,
        back: 4096,
        calls: &[
            Elsewhere(4095, 4095),
            Elsewhere(4097, 4097),
            Run(9, Listing, Value, 1, 1, "SU ZE"),
        ],
        end: End::Decided(2, 1, 0),
    },
    Scenario {
        title: "tables that are too long",
        rule: "AP LA0 SU VA0 ZE",
        front: 4097,
        back: 4097,
        calls: &[No(9, Listing, 30, 0), No(u32::MAX, Sheet(0, &[]), 30, 0)],
        end: End::No(30, 0),
    },
    Scenario {
        title: "tables that are too short",
        rule: "AP LA0 SU VA0 ZE",
        front: 4,
        back: 4,
        calls: &[No(9, Listing, 30, 0), Elsewhere(5, 5)],
        end: End::No(30, 0),
    },
    Scenario {
        title: "a longer back",
        rule: "AP LA0 SU VA0 ZE",
        front: 5,
        back: 6,
        calls: &[No(9, Listing, 30, 0)],
        end: End::No(30, 0),
    },
    Scenario {
        title: "a longer front",
        rule: "AP LA0 SU VA0 ZE",
        front: 6,
        back: 5,
        calls: &[No(9, Listing, 30, 0)],
        end: End::No(30, 0),
    },
    Scenario {
        title: "no tables",
        rule: "ZE",
        front: 0,
        back: 0,
        calls: &[No(0, Listing, 30, 0), Elsewhere(0, 0)],
        end: End::No(30, 0),
    },
    Scenario {
        title: "the shortest tables",
        rule: "ZE",
        front: 1,
        back: 1,
        calls: &[Run(0, Listing, Value, 0, 0, "ZE")],
        end: End::Decided(1, 0, 0),
    },
];
