// The deepest rules: 4,096 nodes, or as many as the nesting allows.
use crate::case::Due::{No, Type};
use crate::case::{Case, Group};

pub static DEEP: [Group; 2] = [
    Group {
        title: "the deepest rules",
        profile: 0x4231,
        types: "",
        cases: &[
            Case("SU*4095 ZE", Type(0, "")),
            Case("SU*4095 TR", No(22, 4094, 1)),
            Case("SU*4094 FS ZE", No(22, 4094, 1)),
            Case("LA0*4095 ZE", Type(4100, "TF0/0 TF0/6+4094")),
            Case("LA0*4095 VA0", Type(4100, "TF0/0 TF0/6+4094")),
            Case("LA0*4095 VA4094", Type(4100, "TF0/0 TF0/6+4094")),
            Case("LA0*4095 VA4095", No(20, 4095, 0)),
            Case("IR0*4095 ZE", Type(4100, "TS0/0 TS0/6+4094")),
            Case("PA,ZE*2047 SU ZE", Type(2051, "TP0/5 TP0/6+2045")),
            Case("AP*1365 LA0*1365 ZE ZE*1365", Type(0, "TF0/0 TF0/6+1364")),
            Case("AP*1365 LA0*1365 ZE TR ZE*1364", No(23, 1364, 2)),
            Case("AP*1365 LA0*1365 ZE ZE*1364 TR", No(23, 0, 2)),
            Case("AP*1365 LA0*1364 ZE ZE*1365", No(22, 0, 1)),
            Case("AP,LA0,VA0*1365 ZE", Type(0, "TF0/0")),
            Case("AP,LA0,VA0*1365 TR", No(23, 4092, 2)),
            Case("RE,ZE,ZE,LA0*1023 VA2045", Type(0, "TF0/0")),
            Case("RE,ZE,ZE,LA0*1023 VA2046", No(20, 4092, 0)),
            Case("RE*1023 ZE ZE,LA0,VA0*1023", Type(0, "TF0/0")),
            Case("RE*1023 ZE ZE,LA0,VA0*1022 ZE LA0 TR", No(23, 0, 3)),
            Case("CA,IL0,ZE,VA0*1023 VA1022", Type(0, "TS0/0")),
            Case("CA,IL0,ZE,VA0*1023 VA1023", No(20, 4092, 0)),
            Case("QU0*4095 ZE", Type(0, "")),
            Case("QU0*4094 QU4 ZE", No(21, 4094, 0)),
        ],
    },
    Group {
        title: "the deepest rules with the most types before",
        profile: 0x4231,
        types: "TP0/1+1024",
        cases: &[
            Case("LA0*4095 ZE", Type(5124, "TF0/0 TF0/1030+4094")),
            Case("LA1029*4095 ZE", Type(5124, "TF1029/0 TF1029/1030+4094")),
            Case("LA0*4094 SU TR", No(22, 4094, 1)),
        ],
    },
];
