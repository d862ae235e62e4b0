ghost use Rattle.std.specs.Prelude.{◌≡◌};
ghost use Rattle.ix_sheet.specs.Sheets.{native_windows_of};

use ix_bits::{Memory, Name};
use rv_core::Shape;

/// What a datasheet tells of a core (SCAIE-V, core datasheet).
#[derive(Clone, Copy, Debug, PartialEq, Eq)]
pub struct Sheet {
    /// The stages of the core.
    pub shape: Shape,
    /// The longest delay within one time, 1 to 1,000,000.
    pub period: u32,
    /// Whether a lifetime costs as many as the result has bits, or one.
    pub weighted: bool,
    /// The delay of each kind of operation, 0 to 1,000,000, in the order of the kinds.
    pub delay: [u32; 34],
    /// The first and the last time of each of the ten first kinds, in their order.
    pub window: [(u8, u8); 10],
}

/// Why a text is no datasheet. A name is the first 64 bytes of a key, each byte that is no visible ASCII character as `?`.
#[derive(Debug, Drop)]
pub enum SheetErr {
    /// The bytes are no UTF-8.
    Utf8,
    /// The text is no TOML.
    Toml,
    /// A key at the top that no datasheet has, or that holds no table where one is due.
    Key { name: Name },
    /// A key that names no kind of operation, or under `window` none of the ten first.
    Kind { name: Name },
    /// The key `core` is missing, or names no core.
    Core,
    /// A window that is empty, or not inside the native one.
    Window { op: Name },
    /// A number that is missing, of another type, or outside its range, or a lifetime that is none.
    Number { name: Name },
    /// Memory was not found.
    Memory,
}

impl From<Memory> for SheetErr {
    ghost use Rattle.std.specs.Prelude.{◌≡◌};
    ghost use Rattle.ix_sheet.specs.declared.sheet.SheetErr.TheVariants.{Memory as memory};

    ghost from_gives = { λ _ e. e ≡ memory };

    fn from(_want: Memory) -> SheetErr {
        SheetErr::Memory
    }
}

/// The first and the last time at which a core of this shape can do each operation of the ten first kinds.
pub fn native_windows(shape: Shape) -> [(u8, u8); 10]
    ensures { result ≡ native_windows_of shape }
{
    let Shape { rd, ex, .. } = shape;
    let wb = shape.stages - 1;
    [
        (rd, wb), // RdInstr
        (rd, ex), // RdRS1
        (rd, ex), // RdRS2
        (rd, wb), // RdPC
        (ex, ex), // RdCustReg
        (ex, ex), // RdMem
        (ex, wb), // WrRD
        (ex, wb), // WrPC
        (ex, wb), // WrCustReg
        (ex, ex), // WrMem
    ]
}
