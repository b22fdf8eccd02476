//! Lines of numbers, written from their ends into a buffer.
ghost use Rattle.std.specs.Prelude.{◌≡◌, ◌+◌, ◌<◌, ◌≤◌, ◌^◌, ◌++◌, ◌∷◌, [], decimal, drop};
ghost use Rattle.std.specs.Fmt.{signed_decimal};
ghost use Rattle.model.specs.Text.{value_text};

use algebra::Domain;
use itoa::write_digits;

/// Room for three numbers of 20 digits, or of 19 and a sign, for what parts them and for a line feed.
pub const LONGEST: usize = 63;

/// Writes two numbers and the value of a word as a line at the end of a buffer, and says where the line
/// begins.
pub fn put_line(
    bytes: &mut [u8; LONGEST],
    first: u64,
    second: u64,
    domain: Domain,
    word: u64,
) -> usize
    ensures within { result ≤ 63 }
    ensures text { drop result bytes.new
        ≡ decimal first ++ 32 ∷ (decimal second ++ 32 ∷ (value_text domain word ++ 10 ∷ [])) }
{
    let start = put_byte(bytes, LONGEST, b'\n');
    let start = put_value(bytes, start, domain, word);
    let start = put_byte(bytes, start, b' ');
    let start = put_number(bytes, start, second);
    let start = put_byte(bytes, start, b' ');
    put_number(bytes, start, first)
}

/// Writes a byte before a place, and gives the byte's place.
#[inline(always)]
fn put_byte(bytes: &mut [u8; LONGEST], end: usize, byte: u8) -> usize
    requires some { 1 ≤ end }
    requires within { end ≤ 63 }
    ensures place { result + 1 ≡ end }
    ensures text { drop result bytes.new ≡ byte ∷ drop end bytes.old }
{
    bytes[end - 1] = byte;
    end - 1
}

/// Writes a number before a place, and says where its text begins.
#[inline(always)]
fn put_number(bytes: &mut [u8; LONGEST], end: usize, number: u64) -> usize
    requires room { 20 ≤ end }
    requires within { end ≤ 63 }
    ensures before { result ≤ end }
    ensures few { end ≤ result + 20 }
    ensures fewer { number < 10 ^ 19 → end ≤ result + 19 }
    ensures text { drop result bytes.new ≡ decimal number ++ drop end bytes.old }
{
    write_digits(number, bytes, end)
}

/// Writes the value of a word before a place, and says where its text begins.
#[inline(always)]
fn put_value(bytes: &mut [u8; LONGEST], end: usize, domain: Domain, word: u64) -> usize
    requires room { 20 ≤ end }
    requires within { end ≤ 63 }
    ensures before { result ≤ end }
    ensures few { end ≤ result + 20 }
    ensures text { drop result bytes.new ≡ value_text domain word ++ drop end bytes.old }
{
    match domain {
        Domain::Bool => put_number(bytes, end, u64::from(word != 0)),
        Domain::Int64 => put_signed(bytes, end, word.cast_signed()),
        Domain::Uint64 | Domain::User(_) => put_number(bytes, end, word),
    }
}

/// Writes a signed number before a place, and says where its text begins.
#[inline(always)]
fn put_signed(bytes: &mut [u8; LONGEST], end: usize, number: i64) -> usize
    requires room { 20 ≤ end }
    requires within { end ≤ 63 }
    ensures before { result ≤ end }
    ensures few { end ≤ result + 20 }
    ensures text { drop result bytes.new ≡ signed_decimal number ++ drop end bytes.old }
{
    let start = put_number(bytes, end, number.unsigned_abs());
    if number >= 0 {
        return start;
    }
    put_byte(bytes, start, b'-')
}
