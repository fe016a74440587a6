// Numbers in digits, in fields of a fixed width.
ghost use Rattle.std.specs.Prelude.{◌≡◌, ◌≤◌, ◌<◌, ◌^◌, ◌==◌, ◌||◌, length, IfSome, IfNone, nat_lt};
ghost use Rattle.std.specs.Char.{digit_value};
ghost use Rattle.std.specs.List.{list_all, prefix_len};
ghost use Rattle.std.specs.Str.Parse.{digits_value};
ghost use Rattle.scroll_layouts.specs.Numerals.{IsNumeral, numeral_value};

mod parts;

/// A number in digits in a field of `N` bytes: blanks, the digits, and zeros and blanks behind
/// them. It is kept with its field, so that it is written back as it was. Without digits it is
/// zero.
///
/// ```rust
/// let size: Option<Octal<8>> = Digits::new(*b"0000644\0");
/// let other: Option<Octal<4>> = Digits::new(*b"0x1 ");
/// assert!(rt; matches!(&size, Some(Digits { value: 420, .. })));
/// assert!(rt; other.is_none());
/// ```
#[derive(Clone, Copy, Debug)]
pub struct Digits<const BASE: u64, const N: usize> {
    /// The field.
    pub bytes: [u8; N],
    /// The number.
    pub value: u64,
    ghost numeral: { IsNumeral BASE bytes },
    ghost is: { value ≡ numeral_value BASE bytes },
}

/// A number in octal digits, as tar has them.
pub type Octal<const N: usize> = Digits<8, N>;

/// A number in decimal digits, as ar has them.
pub type Decimal<const N: usize> = Digits<10, N>;

/// A number in hexadecimal digits, small or great ones, as cpio has them.
pub type Hexadecimal<const N: usize> = Digits<16, N>;

impl<const BASE: u64, const N: usize> Digits<BASE, N> {
    /// Returns the number in a field, or `None` if that has none, or one of more than 64 bits.
    pub fn new(bytes: [u8; N]) -> Option<Digits<BASE, N>>
        ensures some { IfSome result (λ x. x.bytes ≡ bytes.entry) }
        ensures none { IfNone result (IsNumeral BASE bytes.entry → ⊥) }
    {
        let value = numeral_value(&bytes, BASE)?;
        Some(Digits { bytes, value })
    }
}

// Returns the number that a field has, if it is one.
#[tactic(auto, unfolding(crate::specs::Numerals::numeral_value, crate::specs::Numerals::is_ended))]
pub(crate) fn numeral_value(field: &[u8], base: u64) -> Option<u64>
    ensures some { IfSome result (λ value. IsNumeral base field.now
        × (value ≡ numeral_value base field.now)) }
    ensures none { IfNone result (IsNumeral base field.now → ⊥) }
{
    let (_blanks, rest) = field.split_at(blanks(field));
    let (digits, ends) = rest.split_at(digits_len(rest, base));
    if !are_ends(ends) {
        return None;
    }
    let value = value_of(digits, base)?;
    Some(value)
}

// Returns how many blanks stand first.
fn blanks(field: &[u8]) -> usize
    ensures len { result ≡ prefix_len (λ b. b == 32) field.now }
    ensures most { result ≤ length field.now }
{
    let mut at = 0;
    while at < field.len() && field[at] == b' ' {
        at += 1;
    }
    at
}

// Returns how many digits stand first.
fn digits_len(rest: &[u8], base: u64) -> usize
    ensures len { result ≡ prefix_len (λ b. nat_lt (digit_value b) base) rest.now }
    ensures most { result ≤ length rest.now }
{
    let mut at = 0;
    while at < rest.len() && digit(rest[at]) < base {
        at += 1;
    }
    at
}

// Returns whether all bytes are zeros and blanks.
fn are_ends(rest: &[u8]) -> bool
    ensures { result ≡ list_all (λ b. b == 0 || b == 32) rest.now }
{
    rest.iter().all(|byte| *byte == 0 || *byte == b' ')
}

// Returns the number that digits write, or `None` if it has more than 64 bits.
fn value_of(digits: &[u8], base: u64) -> Option<u64>
    ensures some { IfSome result (λ value. value ≡ digits_value base digits.now) }
    ensures none { IfNone result (2 ^ 64 ≤ digits_value base digits.now) }
{
    let mut value: u64 = 0;
    let mut at = 0;
    while at < digits.len() {
        let more = digit(digits[at]);
        let Some(shifted) = value.checked_mul(base) else {
            return None;
        };
        let Some(next) = shifted.checked_add(more) else {
            return None;
        };
        value = next;
        at += 1;
    }
    Some(value)
}

// Returns the value of a digit or a letter, and 36 for another byte.
fn digit(byte: u8) -> u64
    ensures digit { result ≡ digit_value byte }
    ensures most { result ≤ 36 }
{
    match byte {
        b'0'..=b'9' => u64::from(byte - b'0'),
        b'A'..=b'Z' => u64::from(byte - 55),
        b'a'..=b'z' => u64::from(byte - 87),
        _ => 36,
    }
}
