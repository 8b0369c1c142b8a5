//! Whole numbers in fields.
ghost use Rattle.std.specs.Prelude.{◌≡◌, ◌+◌, ◌-◌, ◌*◌, ◌^◌, ◌&&◌, ◌≤◌, length, nat_lt, if◌then◌else◌, Some, None};
ghost use Rattle.std.specs.List.{list_all};
ghost use Rattle.std.specs.Str.Parse.{digits_value};
ghost use Rattle.text_lines.specs.Text.{is_digit, number_in};

/// The number that a field spells: one digit, or several of which the first is not 0. None where the bytes spell no
/// number, or one below `least` or above `most`.
pub fn number_in(bytes: &[u8], least: u64, most: u64) -> Option<u64>
    ensures { result ≡ number_in least most bytes.now }
{
    if bytes.is_empty() || (bytes.len() > 1 && bytes[0] == b'0') {
        return None;
    }
    let value = digits_value(bytes)?;
    (least <= value && value <= most).then_some(value)
}

/// The most digits whose value surely fits.
const FEW: usize = 19;

/// The value of digits: None exactly where there is another byte or the value does not fit.
fn digits_value(bytes: &[u8]) -> Option<u64>
    ensures { result ≡ (if list_all is_digit bytes.now && nat_lt (digits_value 10 bytes.now) (2 ^ 64)
        then Some (digits_value 10 bytes.now) else None) }
{
    if bytes.len() <= FEW {
        return few_digits_value(bytes);
    }
    let mut value = 0u64;
    for byte in bytes {
        value = with_digit(value, *byte)?;
    }
    Some(value)
}

/// The same of so few bytes that the value of digits fits.
fn few_digits_value(bytes: &[u8]) -> Option<u64>
    requires { length bytes.now ≤ 19 }
    ensures { result ≡ (if list_all is_digit bytes.now && nat_lt (digits_value 10 bytes.now) (2 ^ 64)
        then Some (digits_value 10 bytes.now) else None) }
{
    let mut value = 0u64;
    for byte in bytes {
        if !byte.is_ascii_digit() {
            return None;
        }
        value = value * 10 + u64::from(*byte - b'0');
    }
    Some(value)
}

/// The value with one more digit at its end: None exactly where the byte is none or the value does not fit.
fn with_digit(value: u64, byte: u8) -> Option<u64>
    ensures { result ≡ (if is_digit byte && nat_lt (value * 10 + (byte - 48)) (2 ^ 64) then Some (value * 10 + (byte - 48)) else None) }
{
    if !byte.is_ascii_digit() {
        return None;
    }
    value.checked_mul(10)?.checked_add(u64::from(byte - b'0'))
}
