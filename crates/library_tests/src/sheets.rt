use ix_graph::{Kind, Mode};
use ix_sheet::{
    Sheet, SheetErr, bounds_law, chosen_law, cycle_law, flow_law, latency, minimum_law,
    mode_window, native_windows, problem_law, read_sheet,
};
use rv_core::CoreKind;
use std::alloc::Global;
use std::test::Fail;

// A sheet of five stages that narrows two windows.
fn five(alloc: Global) -> Result<Sheet, SheetErr> {
    let text =
        b"core = \"five\"\nperiod = 1000\n[delay]\nadd = 300\nmul = 600\n[window]\nWrRD = [2, 3]\nRdInstr = [3, 4]\n";
    read_sheet(alloc, text)
}

#[test]
fn a_sheet(rt: HostRuntime) -> Result<(), Fail> {
    let sheet = five(rt.alloc())?;
    let mut delays = [0; 34];
    delays[10] = 300;
    delays[12] = 600;
    assert_eq!(rt; sheet.shape, CoreKind::Five.shape());
    assert_eq!(rt; sheet.period, 1000);
    assert_eq!(rt; sheet.delay, delays);
    assert_eq!(rt;
        (sheet.window[0], sheet.window[3], sheet.window[6]),
        ((3, 4), (1, 4), (2, 3))
    );
    Ok(())
}

#[test]
fn windows_in_modes(rt: HostRuntime) -> Result<(), Fail> {
    let sheet = five(rt.alloc())?;
    let cases = [
        (Mode::InPipeline, Kind::WrRD, false, (2, 3)),
        (Mode::InPipeline, Kind::Add, false, (1, 64)),
        (Mode::Tight, Kind::WrRD, false, (2, 64)),
        (Mode::Tight, Kind::WrCustReg(3), false, (2, 64)),
        (Mode::Tight, Kind::WrMem, false, (2, 2)),
        (Mode::Decoupled, Kind::WrRD, true, (5, 64)),
        (Mode::Decoupled, Kind::WrPC, false, (2, 4)),
        (Mode::Always, Kind::WrPC, false, (2, 2)),
        (Mode::Always, Kind::RdInstr, false, (3, 2)),
        (Mode::Always, Kind::Mux, false, (2, 2)),
    ];
    for (mode, kind, spawned, window) in cases {
        assert_eq!(rt;
            mode_window(&sheet, mode, &kind, spawned),
            window,
            "at {kind:?}"
        );
    }
    assert_eq!(rt; latency(sheet.shape, &Kind::RdMem), 1);
    assert_eq!(rt; latency(sheet.shape, &Kind::WrMem), 0);
    Ok(())
}

#[test]
fn bytes_that_are_no_text(rt: HostRuntime) {
    assert!(rt; matches!(read_sheet(rt.alloc(), b"\xff"), Err(SheetErr::Utf8)));
    assert!(rt;
        matches!(
            read_sheet(rt.alloc(), b"core = \"\xc3\""),
            Err(SheetErr::Utf8)
        )
    );
}

#[test]
fn a_long_comment(rt: HostRuntime) -> Result<(), Fail> {
    let mut text = String::from_str(rt.alloc(), "core = \"three\"\nperiod = 1000\n#")?;
    for _ in 0..16_383u32 {
        text.push_str(" 64 bytes of a comment that goes on, and then on, and on further")?;
    }
    assert!(rt; matches!(read_sheet(rt.alloc(), text.as_bytes()), Ok(_)));
    Ok(())
}

#[test]
fn windows_of_cores(rt: HostRuntime) {
    let three = native_windows(CoreKind::Three.shape());
    let five = native_windows(CoreKind::Five.shape());
    assert_eq!(rt;
        three,
        [
            (1, 2),
            (1, 1),
            (1, 1),
            (1, 2),
            (1, 1),
            (1, 1),
            (1, 2),
            (1, 2),
            (1, 2),
            (1, 1)
        ]
    );
    assert_eq!(rt;
        five,
        [
            (1, 4),
            (1, 2),
            (1, 2),
            (1, 4),
            (2, 2),
            (2, 2),
            (2, 4),
            (2, 4),
            (2, 4),
            (2, 2)
        ]
    );
}

#[test]
fn laws(_rt: HostRuntime) {
    bounds_law();
    flow_law();
    cycle_law();
    minimum_law();
    chosen_law();
    problem_law();
}
