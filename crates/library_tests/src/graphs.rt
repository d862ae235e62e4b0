use ix_bits::{Bits, Memory, Ty};
use ix_graph::{Arg, Args, Kind, kind_laws, kind_name, kind_number};

const NAMES: [(&str, Kind); 36] = [
    ("RdInstr", Kind::RdInstr),
    ("RdRS1", Kind::RdRS1),
    ("RdRS2", Kind::RdRS2),
    ("RdPC", Kind::RdPC),
    ("RdCustReg.0", Kind::RdCustReg(0)),
    ("RdMem", Kind::RdMem),
    ("WrRD", Kind::WrRD),
    ("WrPC", Kind::WrPC),
    ("WrCustReg.15", Kind::WrCustReg(15)),
    ("WrMem", Kind::WrMem),
    ("add", Kind::Add),
    ("sub", Kind::Sub),
    ("mul", Kind::Mul),
    ("and", Kind::And),
    ("or", Kind::Or),
    ("xor", Kind::Xor),
    ("not", Kind::Not),
    ("neg", Kind::Neg),
    ("shl", Kind::Shl),
    ("shr", Kind::Shr),
    ("eq", Kind::Eq),
    ("ne", Kind::Ne),
    ("lt", Kind::Lt),
    ("le", Kind::Le),
    ("gt", Kind::Gt),
    ("ge", Kind::Ge),
    ("land", Kind::Land),
    ("lor", Kind::Lor),
    ("lnot", Kind::Lnot),
    ("concat", Kind::Concat),
    ("range", Kind::Range { hi: 127, lo: 3 }),
    ("cast", Kind::Cast),
    ("mux", Kind::Mux),
    ("rom", Kind::Rom(4095)),
    ("RdCustReg.7", Kind::RdCustReg(7)),
    ("WrCustReg.255", Kind::WrCustReg(255)),
];

#[test]
fn names(rt: HostRuntime) -> Result<(), Memory> {
    for (name, kind) in NAMES {
        assert_eq!(rt;
            kind_name(rt.alloc(), &kind)?.as_str().as_bytes(),
            name.as_bytes()
        );
    }
    Ok(())
}

#[test]
fn numbers(rt: HostRuntime) {
    kind_laws();
    for (number, word) in [
        "RdInstr",
        "RdRS1",
        "RdRS2",
        "RdPC",
        "RdCustReg",
        "RdMem",
        "WrRD",
        "WrPC",
        "WrCustReg",
        "WrMem",
    ]
    .iter()
    .enumerate()
    {
        assert_eq!(rt; kind_number(word), Some(number as u8), "at {word}");
    }
    for (word, number) in [
        ("add", 10),
        ("xor", 15),
        ("not", 16),
        ("neg", 17),
        ("shl", 18),
        ("eq", 20),
        ("ge", 25),
        ("land", 26),
        ("range", 30),
        ("mux", 32),
        ("rom", 33),
    ] {
        assert_eq!(rt; kind_number(word), Some(number), "at {word}");
    }
    for word in [
        "RdCustReg.0",
        "addx",
        "",
        "Add",
        "ad",
        "rdinstr",
        " add",
        "rom ",
        "rom4",
    ] {
        assert_eq!(rt; kind_number(word), None, "at {word}");
    }
}

#[test]
fn arguments(rt: HostRuntime) {
    let word = Ty {
        signed: false,
        width: 32,
    };
    let all = [
        Arg::Op(4),
        Arg::Const(word, Bits { raw: 7, width: 32 }),
        Arg::Op(1),
    ];
    assert_eq!(rt; Args::of(rt.alloc(), &all).as_slice(), all.as_slice());
    assert_eq!(rt; Args::of(rt.alloc(), &[]).as_slice().len(), 0);
}
