ghost use Rattle.std.specs.Prelude.{◌≡◌, length, map, find, All, IfSome, option_map, reverse};
ghost use Rattle.httparse.specs.Spans.{IsHeaderWithin, header_bytes, span_bytes};
ghost use Rattle.std.specs.Str.{str_eq_ignore_ascii_case};
ghost use Rattle.httparse.specs.Grammar.{skip_ows};
ghost use Rattle.gaz_http.specs.Headers.{asks_close, closes_in, count_of, has_close, value_of};
ghost use Rattle.gaz_http.specs.Headers.{is_close_header, is_close_option};

use httparse::spans::HeaderSpan;

/// How many headers have the name, whatever the case of its letters.
///
/// > Field names are case-insensitive (RFC 9110, section 5.1)
pub fn how_many(buf: &[u8], headers: &[HeaderSpan], name: &[u8]) -> usize
    requires { All (IsHeaderWithin (length buf.now)) headers.now }
    ensures { result ≡ count_of name.now (map (header_bytes buf.now) headers.now) }
{
    headers
        .iter()
        .filter(|h| h.name.of(buf).eq_ignore_ascii_case(name))
        .count()
}

// The first header of the name.
fn find_header<'h>(buf: &[u8], headers: &'h [HeaderSpan], name: &[u8]) -> Option<&'h HeaderSpan>
    requires { All (IsHeaderWithin (length buf.now)) headers.now }
    ensures found { option_map (λ h. h.now) result
        ≡ find (λ h. str_eq_ignore_ascii_case (span_bytes buf.now h.name) name.now)
        headers.entry.now }
    ensures within { IfSome result (λ h. IsHeaderWithin (length buf.now) h.now) }
{
    headers
        .iter()
        .find(|h| h.name.of(buf).eq_ignore_ascii_case(name))
}

/// The value of the first header of the name.
pub fn find_value<'b>(buf: &'b [u8], headers: &[HeaderSpan], name: &[u8]) -> Option<&'b [u8]>
    requires { All (IsHeaderWithin (length buf.now)) headers.now }
    ensures { option_map (λ v. v.now) result
        ≡ value_of name.now (map (header_bytes buf.entry.now) headers.now) }
{
    match find_header(buf, headers, name) {
        Some(header) => Some(header.value.of(buf)),
        None => None,
    }
}

// The text without the SP and TAB at its front.
//
// > OWS            = *( SP / HTAB ) (RFC 9110, section 5.6.3)
fn trim_front(text: &[u8]) -> &[u8]
    ensures { result.now ≡ skip_ows text.now }
{
    let mut text = text;
    while let [b' ' | b'\t', rest @ ..] = text {
        text = rest;
    }
    text
}

// The text without the SP and TAB at its back.
fn trim_back(text: &[u8]) -> &[u8]
    ensures { result.now ≡ reverse (skip_ows (reverse text.now)) }
{
    let mut text = text;
    while let [rest @ .., b' ' | b'\t'] = text {
        text = rest;
    }
    text
}

#[tactic(auto, unfolding(httparse::specs::Grammar::trim_ows))]
// Whether an element of a `Connection` header is `close`.
//
// > Connection options are case-insensitive. (RFC 9110, section 7.6.1)
fn is_close(element: &[u8]) -> bool
    ensures { result ≡ is_close_option element.now }
{
    trim_back(trim_front(element)).eq_ignore_ascii_case(b"close")
}

// Whether one of the elements of a `Connection` header is `close`; a comma stands between each two.
//
// > Connection        = #connection-option (RFC 9110, section 7.6.1)
// > #element => [ element ] *( OWS "," OWS [ element ] ) (RFC 9110, section 5.6.1.2)
fn has_close_option(value: &[u8]) -> bool
    ensures { result ≡ has_close value.now }
{
    value.split(|b| *b == b',').any(|element| is_close(element))
}

// Whether the header is a `Connection` with the option `close`.
fn is_closing_header(buf: &[u8], header: &HeaderSpan) -> bool
    requires { IsHeaderWithin (length buf.now) header.now }
    ensures { result ≡ is_close_header (header_bytes buf.now header.now) }
{
    header.name.of(buf).eq_ignore_ascii_case(b"connection")
        && has_close_option(header.value.of(buf))
}

// Whether one of the headers is a `Connection` with the option `close`.
fn asks_to_close(buf: &[u8], headers: &[HeaderSpan]) -> bool
    requires { All (IsHeaderWithin (length buf.now)) headers.now }
    ensures { result ≡ asks_close (map (header_bytes buf.now) headers.now) }
{
    headers.iter().any(|h| is_closing_header(buf, h))
}

/// Whether the conversation ends after a request of HTTP/1.`minor` with these headers, by its own
/// word.
///
/// > If the "close" connection option is present (Section 9.6), the connection will not persist
/// > after the current response (RFC 9112, section 9.3)
///
/// Without it the connection persists after a request of HTTP/1.1. After one of HTTP/1.0 that names
/// `keep-alive` a server may let it persist (the same section); ours knows no `keep-alive`, so such
/// a request always ends the conversation.
pub fn closes(buf: &[u8], minor: u8, headers: &[HeaderSpan]) -> bool
    requires { All (IsHeaderWithin (length buf.now)) headers.now }
    ensures { result ≡ closes_in minor (map (header_bytes buf.now) headers.now) }
{
    minor == 0 || asks_to_close(buf, headers)
}
