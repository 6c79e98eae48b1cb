// Fields of a frame whose eight bytes are one number, low byte first.
ghost use Rattle.std.specs.Prelude.{◌≡◌, ◌^◌, ◌<◌, length};
ghost use Rattle.frame.specs.Bytes.{bytes_of};
ghost use Rattle.frame.specs.Frame.{frame_bytes};
ghost use Rattle.catalogue.specs.Field.{field_of, with_field, InFrame};

// The greatest width, and the bits of a frame.
pub const WIDEST: u8 = 32;

pub const FRAME_BITS: u8 = 64;

// The widths that have all three classes (000, Table 3.2.3b).
pub const UINT8: u8 = 8;

pub const UINT16: u8 = 16;

pub const UINT32: u8 = 32;

// The code in a field; 0 beyond the frame.
pub fn cut(number: u64, first: u8, width: u8) -> u64
    ensures { result ≡ field_of first width number }
{
    if FRAME_BITS <= first {
        0
    } else if FRAME_BITS <= width {
        number >> first
    } else {
        (number >> first) % power(width)
    }
}

// The number with another code in a field.
pub fn put(number: u64, first: u8, width: u8, code: u64) -> u64
    requires in_frame { InFrame first width }
    requires code_bound { code < 2 ^ width }
    ensures { result ≡ with_field first width code number }
{
    let place = power(first);
    number - cut(number, first, width) * place + code * place
}

// The number's eight bytes, low byte first.
pub fn store(bytes: &mut [u8], number: u64)
    requires { length bytes.old ≡ frame_bytes }
    ensures { bytes.new ≡ bytes_of frame_bytes number }
{
    bytes.copy_from_slice(&number.to_le_bytes());
}

pub fn power(k: u8) -> u64
    requires { k < 64 }
    ensures { result ≡ 2 ^ k }
{
    1u64 << k
}
