ghost use Rattle.std.specs.Prelude.{◌≡◌, ◌≤◌, ◌<◌, true, length, map, All, IfSome, IfNone};
ghost use Rattle.std.specs.Str.{all_ascii_digits};
ghost use Rattle.std.specs.Str.Parse.{digits_value};
ghost use Rattle.httparse.specs.Spans.{IsHeaderWithin, header_bytes};
ghost use Rattle.gaz_ids.specs.Limits.{most_bytes};
ghost use Rattle.gaz_exchange.specs.Framing.{is_post_method, length_in, size_in};

use crate::fault::Fault;
use gaz_http::{find_value, how_many};
use gaz_ids::MOST_BYTES;
use gaz_ids::digits::are_digits;
use gaz_steps::DoorRefusal;
use httparse::spans::HeaderSpan;

/// How long the body of a request is.
#[derive(Clone, Copy)]
pub enum Framing {
    /// In bytes, at most 1,048,576.
    Length(usize),
    /// The length isn't told, or not taken.
    Refused(Fault),
}

// The number that the digits write, where a body may have so many bytes. Any number of leading
// zeros is fine.
fn limited_value(digits: &[u8]) -> Option<usize>
    requires { all_ascii_digits digits.now ≡ true }
    ensures value { IfSome result (λ n. n ≡ digits_value 10 digits.now) }
    ensures fits { IfSome result (λ n. n ≤ most_bytes) }
    ensures exceeds { IfNone result (most_bytes < digits_value 10 digits.now) }
{
    let mut value = 0;
    for byte in digits {
        value = value * 10 + usize::from(*byte - b'0');
        if value as u64 > MOST_BYTES {
            return None;
        }
    }
    Some(value)
}

// The size that the value of a `Content-Length` tells (RFC 9110, section 8.6):
//
// > Content-Length = 1*DIGIT
//
// Another value makes the framing of a request invalid, an error that can't be recovered from, and
// is answered 400 (RFC 9112, section 6.3). A recipient may take one value repeated with commas
// between as that value; ours takes digits alone, as section 8.6 of RFC 9110 lets it.
fn size_of(value: &[u8]) -> Framing
    ensures { result ≡ size_in value.now }
{
    if value.is_empty() || !are_digits(value) {
        return Framing::Refused(Fault::BadRequest);
    }
    match limited_value(value) {
        Some(size) => Framing::Length(size),
        None => Framing::Refused(Fault::Door(DoorRefusal::TooLarge)),
    }
}

/// How long the body of a request with this method and these headers is (RFC 9112, section 6.3).
///
/// > If a valid Content-Length header field is present without Transfer-Encoding, its decimal value
/// > defines the expected message body length in octets.
///
/// > If this is a request message and none of the above are true, then the message body length is
/// > zero (no message body is present).
///
/// > A server MAY reject a request that contains a message body but not a Content-Length by
/// > responding with 411 (Length Required).
///
/// A POST without a `Content-Length` is refused so. Our profile takes no transfer coding, and
/// answers 411 to any, where RFC 9112, section 6.1, has
///
/// > A server that receives a request message with a transfer coding it does not understand SHOULD
/// > respond with 501 (Not Implemented).
///
/// More than one `Content-Length` is refused, whether or not their values are the same, which
/// section 8.6 of RFC 9110 leaves open for the same value.
pub fn find_framing(buf: &[u8], is_post: bool, headers: &[HeaderSpan]) -> Framing
    requires { All (IsHeaderWithin (length buf.now)) headers.now }
    ensures { result ≡ length_in is_post (map (header_bytes buf.now) headers.now) }
{
    if how_many(buf, headers, b"transfer-encoding") > 0 {
        return Framing::Refused(Fault::LengthRequired);
    }
    if how_many(buf, headers, b"content-length") > 1 {
        return Framing::Refused(Fault::BadRequest);
    }
    match find_value(buf, headers, b"content-length") {
        Some(value) => size_of(value),
        None if is_post => Framing::Refused(Fault::LengthRequired),
        None => Framing::Length(0),
    }
}

/// Whether the method is POST, whose case counts, as with each method (RFC 9110, section 9.1).
pub fn is_post(method: &[u8]) -> bool
    ensures { result ≡ is_post_method method.now }
{
    method == b"POST".as_slice()
}
