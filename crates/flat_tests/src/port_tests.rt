//! Which ports are those of an outside, and which outputs an input is looked up by.
use crate::netlists::{PortRow, Said, said_of, text_with};
use ap_flat::FlatFault;
use std::test::Fail;

const IADDR: PortRow = ("iaddr", 4, true);

const IDATA: PortRow = ("idata", 8, false);

const MWAIT: PortRow = ("mwait", 1, false);

const STALL: PortRow = ("stall", 1, true);

const KILL: PortRow = ("kill", 1, true);

const ENABLE: PortRow = ("w_R_e", 1, true);

const VALUE: PortRow = ("w_R_v", 8, true);

const MEM_RA: PortRow = ("m_D_ra", 3, true);

const MEM_RD: PortRow = ("m_D_rd", 8, false);

const MEM_WE: PortRow = ("m_D_we", 1, true);

const MEM_WA: PortRow = ("m_D_wa", 3, true);

const MEM_WD: PortRow = ("m_D_wd", 8, true);

/// Lists of ports that are those of an outside.
const DUE: &[&[PortRow]] = &[
    &[IADDR, IDATA, MWAIT, STALL, KILL],
    &[IADDR, IDATA, MWAIT, STALL, KILL, ENABLE, VALUE],
    &[IADDR, IDATA, MWAIT, ("p_X", 64, false), STALL, KILL],
    &[
        IADDR, IDATA, MWAIT, MEM_RA, MEM_RD, MEM_WE, MEM_WA, MEM_WD, STALL, KILL,
    ],
    &[
        ("iaddr", 16, true),
        ("idata", 64, false),
        MWAIT,
        STALL,
        KILL,
        ("w_F_0_e", 1, true),
        ("w_F_0_x", 3, true),
        ("w_F_0_v", 8, true),
        ENABLE,
        VALUE,
        ("w_F_18446744073709551615_e", 1, true),
        ("w_F_18446744073709551615_x", 64, true),
        ("w_F_18446744073709551615_v", 8, true),
    ],
];

/// Lists of ports that are those of none.
const NOT_DUE: &[&[PortRow]] = &[
    &[IADDR],
    &[IDATA, IADDR, MWAIT, STALL, KILL],
    &[("iaddr", 17, true), IDATA, MWAIT, STALL, KILL],
    &[("iaddr", 4, false), IDATA, MWAIT, STALL, KILL],
    &[IADDR, IDATA, ("mwait", 2, false), STALL, KILL],
    &[IADDR, IDATA, MWAIT, KILL, STALL],
    &[IADDR, IDATA, MWAIT, STALL],
    &[IADDR, IDATA, MWAIT, STALL, KILL, VALUE, ENABLE],
    &[IADDR, IDATA, MWAIT, STALL, KILL, ENABLE],
    &[IADDR, IDATA, MWAIT, STALL, KILL, ENABLE, VALUE, KILL_TOO],
    &[IADDR, IDATA, MWAIT, ("p_X", 8, true), STALL, KILL],
    &[IADDR, IDATA, MWAIT, ("p_X_Y", 8, false), STALL, KILL],
    &[
        IADDR, IDATA, MWAIT, MEM_RA, MEM_RD, MEM_WE, MEM_WA, STALL, KILL,
    ],
    &[
        IADDR,
        IDATA,
        MWAIT,
        MEM_RA,
        MEM_RD,
        MEM_WE,
        ("m_D_wa", 4, true),
        MEM_WD,
        STALL,
        KILL,
    ],
    &[
        IADDR,
        IDATA,
        MWAIT,
        ("m_code_ra", 3, true),
        ("m_code_rd", 8, false),
        ("m_code_we", 1, true),
        ("m_code_wa", 3, true),
        ("m_code_wd", 8, true),
        STALL,
        KILL,
    ],
    &[
        IADDR,
        IDATA,
        MWAIT,
        STALL,
        KILL,
        ("w_F_00_e", 1, true),
        ("w_F_00_x", 3, true),
        ("w_F_00_v", 8, true),
    ],
    &[
        IADDR,
        IDATA,
        MWAIT,
        STALL,
        KILL,
        ("w_F_18446744073709551616_e", 1, true),
        ("w_F_18446744073709551616_x", 3, true),
        ("w_F_18446744073709551616_v", 8, true),
    ],
    &[
        IADDR,
        IDATA,
        MWAIT,
        STALL,
        KILL,
        ("w_F_0_e", 1, true),
        ("w_F_1_x", 3, true),
        ("w_F_0_v", 8, true),
    ],
];

const KILL_TOO: PortRow = ("kill2", 1, true);

/// The names of nine inputs.
const NINE: &[&str] = &[
    "p_A", "p_B", "p_C", "p_D", "p_E", "p_F", "p_G", "p_H", "p_I",
];

#[test]
fn ports_of_an_outside(rt: HostRuntime) -> Result<(), Fail> {
    let alloc = rt.alloc();
    for ports in DUE {
        let text = text_with(alloc, ports, &[])?;
        assert_eq!(rt; said_of(alloc, &text), Said::Opened);
    }
    for ports in NOT_DUE {
        let text = text_with(alloc, ports, &[])?;
        assert_eq!(rt; said_of(alloc, &text), Said::Not(FlatFault::BadPorts));
    }
    Ok(())
}

#[test]
fn at_most_eight_inputs(rt: HostRuntime) -> Result<(), Fail> {
    let alloc = rt.alloc();
    for count in 7..10 {
        let mut ports: Vec<PortRow> = Vec::new(alloc);
        ports.push(IADDR)?;
        ports.push(IDATA)?;
        ports.push(MWAIT)?;
        for name in &NINE[..count] {
            ports.push((*name, 8, false))?;
        }
        ports.push(STALL)?;
        ports.push(KILL)?;
        let text = text_with(alloc, &ports, &[])?;
        let due = if count <= 8 {
            Said::Opened
        } else {
            Said::Not(FlatFault::BadPorts)
        };
        assert_eq!(rt; said_of(alloc, &text), due);
    }
    Ok(())
}

/// Ports of which each output copies an input, or is 0, and whether some net depends on itself then.
const LOOKED_UP: &[(&[PortRow], &[(usize, usize)], bool)] = &[
    (&[("iaddr", 8, true), IDATA], &[(0, 1)], true),
    (
        &[("iaddr", 8, false), IDATA, ("y", 8, true)],
        &[(2, 1)],
        false,
    ),
    (&[IDATA, ("iaddr", 8, true)], &[(1, 0)], true),
    (
        &[("m_A_ra", 8, true), ("m_A_rd", 8, false)],
        &[(0, 1)],
        true,
    ),
    (
        &[("m_A_ra", 8, true), ("m_B_rd", 8, false)],
        &[(0, 1)],
        false,
    ),
    (
        &[("m_A_B_ra", 8, true), ("m_A_B_rd", 8, false)],
        &[(0, 1)],
        false,
    ),
    (
        &[("m_A_rd", 8, true), ("m_A_ra", 8, false)],
        &[(0, 1)],
        false,
    ),
    (
        &[
            ("m_A_ra", 8, true),
            ("m_A_rd", 8, false),
            ("m_B_ra", 8, true),
            ("m_B_rd", 8, false),
        ],
        &[(0, 3), (2, 1)],
        true,
    ),
    (
        &[
            ("iaddr", 8, true),
            ("m_B_rd", 8, false),
            ("m_B_ra", 8, true),
            IDATA,
        ],
        &[(0, 1), (2, 3)],
        true,
    ),
];

#[test]
fn loops_through_the_outside(rt: HostRuntime) -> Result<(), Fail> {
    let alloc = rt.alloc();
    for (ports, copies, looped) in LOOKED_UP {
        let text = text_with(alloc, ports, copies)?;
        let due = if *looped {
            FlatFault::Loop
        } else {
            FlatFault::BadPorts
        };
        assert_eq!(rt; said_of(alloc, &text), Said::Not(due));
    }
    Ok(())
}
