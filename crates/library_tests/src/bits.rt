use ix_bits::{BinOp, Bits, Ty, UnOp, binary, cast, range, unary};

#[test]
fn sums_of_unlike_signs(rt: HostRuntime) {
    let u5 = Ty {
        signed: false,
        width: 5,
    };
    let s4 = Ty {
        signed: true,
        width: 4,
    };
    let seventeen = binary(
        BinOp::Add,
        u5,
        Bits { raw: 17, width: 5 },
        s4,
        Bits { raw: 7, width: 4 },
    );
    assert_eq!(rt; seventeen.raw, 24);
    assert_eq!(rt; seventeen.width, 7);
    let least = Bits { raw: 8, width: 4 };
    assert_eq!(rt;
        binary(BinOp::Add, u5, Bits { raw: 31, width: 5 }, s4, least).raw,
        23
    );
    assert_eq!(rt;
        binary(BinOp::Add, u5, Bits { raw: 0, width: 5 }, s4, least).raw,
        0x78
    );
}

#[test]
fn casts_and_ranges(rt: HostRuntime) {
    let u8_type = Ty {
        signed: false,
        width: 8,
    };
    let s8_type = Ty {
        signed: true,
        width: 8,
    };
    let u32_type = Ty {
        signed: false,
        width: 32,
    };
    let byte = cast(u8_type, s8_type, Bits { raw: 200, width: 8 });
    assert_eq!(rt; byte.raw, 0xc8);
    assert_eq!(rt;
        cast(
            s8_type,
            u32_type,
            Bits {
                raw: 0xc8,
                width: 8
            }
        )
        .raw,
        0xffff_ffc8
    );
    let word = Bits {
        raw: 0x0102_0304,
        width: 32,
    };
    assert_eq!(rt; range(word, 15, 8).raw, 3);
    assert_eq!(rt; range(word, 15, 8).width, 8);
    assert_eq!(rt;
        unary(UnOp::Neg, u8_type, Bits { raw: 200, width: 8 }).raw,
        0x138
    );
}
