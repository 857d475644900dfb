// Questions: answers of every shape, and hosts that change between calls.
use crate::scenario::Call::{No, Run};
use crate::scenario::Under::{Listing, Sheet};
use crate::scenario::{End, Scenario, Under};
use calculus::stop::StopCause::{Full, Spent, Value};
use hosts::line::Line;

// Sheets with the profile of a listing.
const SILENT: Under = Sheet(0x4231, &[]);

const TWO: Under = Sheet(
    0x4231,
    &[Line {
        question: 0,
        number: 0,
        a: 2,
        b: 0,
    }],
);

const SPOKEN: Under = Sheet(
    0x4231,
    &[
        Line {
            question: 0,
            number: 0,
            a: 255,
            b: 0,
        },
        Line {
            question: 1,
            number: 1,
            a: 1,
            b: 3,
        },
        Line {
            question: 2,
            number: 0,
            a: 1,
            b: 0,
        },
        Line {
            question: 3,
            number: 2,
            a: 1,
            b: 2,
        },
    ],
);

pub static HOSTS_CHANGE: [Scenario; 16] = [
    Scenario {
        title: "a flag of the listing without versions",
        rule: "CA QU2 ZE ZE SU ZE",
        front: 6,
        back: 6,
        calls: &[Run(9, Listing, Value, 2, 2, "SU ZE")],
        end: End::Decided(2, 2, 0),
    },
    Scenario {
        title: "a flag of the silent sheet",
        rule: "CA QU2 ZE ZE SU ZE",
        front: 6,
        back: 6,
        calls: &[
            Run(1, SILENT, Spent, 1, 1, "CA IL1 TR ZE SU ZE"),
            Run(1, SILENT, Value, 1, 2, "ZE"),
        ],
        end: End::Decided(1, 2, 0),
    },
    Scenario {
        title: "a flag that was answered stays",
        rule: "CA QU2 ZE ZE SU ZE",
        front: 6,
        back: 6,
        calls: &[
            Run(1, SPOKEN, Spent, 1, 1, "CA IR1 TR ZE SU ZE"),
            Run(1, SILENT, Value, 1, 2, "SU ZE"),
        ],
        end: End::Decided(2, 2, 0),
    },
    Scenario {
        title: "two flags under two hosts",
        rule: "PA CA QU2 ZE ZE SU ZE CA QU2 ZE ZE SU ZE",
        front: 13,
        back: 13,
        calls: &[
            Run(2, Listing, Spent, 2, 2, "PA SU ZE CA QU2 ZE ZE SU ZE"),
            Run(9, SILENT, Value, 2, 4, "PA SU ZE ZE"),
        ],
        end: End::Decided(4, 4, 5),
    },
    Scenario {
        title: "two flags under the same hosts the other way round",
        rule: "PA CA QU2 ZE ZE SU ZE CA QU2 ZE ZE SU ZE",
        front: 13,
        back: 13,
        calls: &[
            Run(2, SILENT, Spent, 2, 2, "PA ZE CA QU2 ZE ZE SU ZE"),
            Run(9, Listing, Value, 2, 4, "PA ZE SU ZE"),
        ],
        end: End::Decided(4, 4, 5),
    },
    Scenario {
        title: "an answer that fits under a later host",
        rule: "QU0 ZE",
        front: 2,
        back: 2,
        calls: &[
            Run(5, SPOKEN, Full, 0, 0, "QU0 ZE"),
            Run(5, TWO, Full, 0, 0, "QU0 ZE"),
            Run(5, Listing, Value, 1, 1, "ZE"),
        ],
        end: End::Decided(1, 1, 0),
    },
    Scenario {
        title: "the largest number in just enough room",
        rule: "QU0 ZE",
        front: 256,
        back: 256,
        calls: &[Run(5, SPOKEN, Value, 1, 1, "SU*255 ZE")],
        end: End::Decided(256, 1, 0),
    },
    Scenario {
        title: "the largest number in one record less",
        rule: "QU0 ZE",
        front: 255,
        back: 255,
        calls: &[
            Run(0, SPOKEN, Spent, 0, 0, "QU0 ZE"),
            Run(5, SPOKEN, Full, 0, 0, "QU0 ZE"),
        ],
        end: End::No(34, 0),
    },
    Scenario {
        title: "a maybe that is absent",
        rule: "QU1 SU ZE",
        front: 3,
        back: 3,
        calls: &[Run(5, Listing, Value, 1, 1, "IL0 TR")],
        end: End::Decided(2, 1, 4),
    },
    Scenario {
        title: "a maybe that is present in just enough room",
        rule: "QU1 SU ZE",
        front: 5,
        back: 5,
        calls: &[Run(5, SPOKEN, Value, 1, 1, "IR1 SU SU SU ZE")],
        end: End::Decided(5, 1, 4),
    },
    Scenario {
        title: "a maybe that is present in one record less",
        rule: "QU1 SU ZE",
        front: 4,
        back: 4,
        calls: &[Run(5, SPOKEN, Full, 0, 0, "QU1 SU ZE")],
        end: End::No(34, 0),
    },
    Scenario {
        title: "a pair in just enough room",
        rule: "QU3 SU SU ZE",
        front: 6,
        back: 6,
        calls: &[Run(5, SPOKEN, Value, 1, 1, "PA SU ZE SU SU ZE")],
        end: End::Decided(6, 1, 5),
    },
    Scenario {
        title: "a pair in one record less",
        rule: "QU3 SU SU ZE",
        front: 5,
        back: 5,
        calls: &[
            Run(5, SPOKEN, Full, 0, 0, "QU3 SU SU ZE"),
            Run(5, SILENT, Value, 1, 1, "PA ZE ZE"),
        ],
        end: End::Decided(3, 1, 5),
    },
    Scenario {
        title: "questions in the number of a question",
        rule: "QU0 QU0 AP LA0 VA0 ZE",
        front: 6,
        back: 6,
        calls: &[
            Run(1, TWO, Spent, 1, 1, "QU0 QU0 ZE"),
            Run(1, TWO, Spent, 1, 2, "QU0 SU SU ZE"),
            Run(1, TWO, Value, 1, 3, "ZE"),
        ],
        end: End::Decided(1, 3, 0),
    },
    Scenario {
        title: "a question at the largest number that has room",
        rule: "QU0 SU*4094 ZE",
        front: 4096,
        back: 4096,
        calls: &[Run(9, Listing, Value, 1, 1, "ZE")],
        end: End::Decided(1, 1, 0),
    },
    Scenario {
        title: "a host of another profile",
        rule: "QU0 ZE",
        front: 2,
        back: 2,
        calls: &[
            No(5, Sheet(0, &[]), 32, 0),
            No(5, Sheet(0x4230, &[]), 32, 0),
            No(0, Sheet(0x1000_4231, &[]), 32, 0),
            Run(5, SILENT, Value, 1, 1, "ZE"),
            No(5, Sheet(0x4230, &[]), 32, 0),
        ],
        end: End::Decided(1, 1, 0),
    },
];
