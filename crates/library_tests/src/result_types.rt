ghost use Rattle.std.specs.Prelude.{◌≤◌};

use ix_bits::{BinOp, Ty, UnOp};
use ix_types::{TypeErr, common, embeds, type_of_binary, type_of_unary};

fn unsigned(width: u8) -> Ty
    requires some { 1 ≤ width }
    requires most { width ≤ 128 }
{
    Ty {
        signed: false,
        width,
    }
}

fn signed(width: u8) -> Ty
    requires some { 1 ≤ width }
    requires most { width ≤ 128 }
{
    Ty {
        signed: true,
        width,
    }
}

#[test]
fn operators(rt: HostRuntime) {
    assert_eq!(rt;
        type_of_binary(BinOp::Add, unsigned(5), signed(4)),
        Ok(signed(7))
    );
    assert_eq!(rt;
        type_of_binary(BinOp::Add, unsigned(128), unsigned(1)),
        Err(TypeErr::TooWide)
    );
    assert_eq!(rt;
        type_of_binary(BinOp::And, signed(8), unsigned(8)),
        Err(TypeErr::Mixed)
    );
    assert_eq!(rt; type_of_unary(UnOp::Neg, unsigned(8)), Ok(signed(9)));
    assert_eq!(rt; common(unsigned(5), signed(4)), Ok(signed(6)));
}

#[test]
fn embeddings(rt: HostRuntime) {
    assert!(rt; !embeds(unsigned(8), signed(8)));
    assert!(rt; embeds(signed(7), signed(7)));
    assert!(rt; !embeds(signed(7), signed(6)));
}
