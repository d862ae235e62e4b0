ghost use Rattle.std.specs.Prelude.{◌≡◌, ◌+◌, ◌/◌, ◌%◌, ◌^◌, ◌<◌, ◌≤◌, [], ◌∷◌, ◌++◌, length};
ghost use Rattle.ix_dump.specs.Dump.{binary_digits, port_code, port_line, row_line, scope_line, value_text, value_line};

use ix_bits::Bits;
use ix_io::Out;
use ix_net::Port;

/// Appends the code that stands for a port, by its number.
fn put_code(out: &mut Out, k: u32)
    requires { length out.old + 21 ≤ 65536 }
    ensures text { out.new ≡ out.old ++ port_code k }
    ensures few { length out.new ≤ length out.old + 21 }
{
    out.text("p");
    out.decimal(u64::from(k));
}

/// Appends the line that begins the ports of a module (IEEE 1364-2005, section 18.2.3, $scope),
/// whose name has at most 80 bytes. Needs room for 256 bytes, and takes no memory.
pub fn put_scope_line(out: &mut Out, name: &str)
    requires short { length name.now ≤ 80 }
    requires room { length out.old + 256 ≤ 65536 }
    ensures { out.new ≡ out.old ++ scope_line name.now }
{
    out.text("$scope module ");
    out.text(name);
    out.text(" $end\n");
}

/// Appends the line that declares port `k` (IEEE 1364-2005, section 18.2.3, $var). Needs room for
/// 256 bytes, and takes no memory.
pub fn put_port_line(out: &mut Out, k: u32, port: &Port)
    requires { length out.old + 256 ≤ 65536 }
    ensures { out.new ≡ out.old ++ port_line k port.now }
{
    out.text("$var wire ");
    out.decimal(u64::from(port.width));
    out.text(" ");
    put_code(out, k);
    out.text(" ");
    out.text(port.name.as_str());
    out.text(" $end\n");
}

/// Appends the line of a row's time, which is its number (IEEE 1364-2005, section 18.2.1). Needs
/// room for 256 bytes, and takes no memory.
pub fn put_row_line(out: &mut Out, number: u32)
    requires { length out.old + 256 ≤ 65536 }
    ensures { out.new ≡ out.old ++ row_line number }
{
    out.text("#");
    out.decimal(u64::from(number));
    out.text("\n");
}

/// Appends the bit at a place, counted from the least one.
fn put_bit(out: &mut Out, value: u128, place: u8)
    requires place { place < 128 }
    requires room { length out.old + 1 ≤ 65536 }
    ensures text { out.new ≡ out.old ++ (48 + value / 2 ^ place % 2) ∷ [] }
    ensures count { length out.new ≡ length out.old + 1 }
{
    if (value >> place) % 2 == 0 {
        out.text("0");
    } else {
        out.text("1");
    }
}

/// Appends all bits of a pattern, the most significant first.
fn put_bits(out: &mut Out, value: Bits)
    requires { length out.old + value.width ≤ 65536 }
    ensures text { out.new ≡ out.old ++ binary_digits value.width value.raw }
    ensures count { length out.new ≡ length out.old + value.width }
{
    let mut left = value.width;
    while left > 0 {
        left -= 1;
        put_bit(out, value.raw, left);
    }
}

/// Appends a value as a dump has it in front of the code of its port.
fn put_value(out: &mut Out, value: Bits)
    requires { length out.old + 130 ≤ 65536 }
    ensures text { out.new ≡ out.old ++ value_text value.width value.raw }
    ensures few { length out.new ≤ length out.old + 130 }
{
    if value.width == 1 {
        put_bits(out, value);
    } else {
        out.text("b");
        put_bits(out, value);
        out.text(" ");
    }
}

/// Appends the line that gives port `k` a value of its width (IEEE 1364-2005, section 18.2.1).
/// Needs room for 256 bytes, and takes no memory.
pub fn put_value_line(out: &mut Out, k: u32, value: Bits)
    requires { length out.old + 256 ≤ 65536 }
    ensures { out.new ≡ out.old ++ value_line k value.width value.raw }
{
    put_value(out, value);
    put_code(out, k);
    out.text("\n");
}
