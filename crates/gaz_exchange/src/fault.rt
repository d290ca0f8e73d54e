ghost use Rattle.std.specs.Prelude.{◌≡◌};
ghost use Rattle.gaz_exchange.specs.Faults.{fault_of};
ghost use Rattle.gaz_exchange.specs.Replies.{reply_text};
ghost use Rattle.gaz_exchange.specs.declared.reply.Reply.TheVariants as Reply;

use gaz_steps::{DoorRefusal, Refusal};

/// The methods that a target takes.
#[derive(Clone, Copy, PartialEq, Eq)]
pub enum Allowed {
    Get,
    GetAndPost,
}

/// Why a request was refused.
#[derive(Clone, Copy, PartialEq, Eq)]
pub enum Fault {
    /// 11, 12, 13 and 16: by the hub's door.
    Door(DoorRefusal),
    /// 17: what is asked for isn't there.
    NotThere,
    /// 40: no head of a request, no lawful `Content-Length`, or an input that ends within it.
    BadRequest,
    /// 41: nothing is at the target.
    NoRoute,
    /// 42: what is at the target doesn't take the method.
    BadMethod(Allowed),
    /// 43: the body's length isn't told, or by a `Transfer-Encoding`.
    LengthRequired,
    /// 51: the request's file wasn't received by it, or its question wasn't answered: memory or the
    /// store failed.
    NotReceived,
    /// 52: the file was received, and not all that is ready was judged or told.
    Unsettled,
}

impl From<Refusal> for Fault {
    ghost from_gives = { λ refusal fault. fault ≡ fault_of refusal };

    fn from(refusal: Refusal) -> Fault {
        match refusal {
            Refusal::Door(why) => Fault::Door(why),
            Refusal::NotReceived(_) => Fault::NotReceived,
            Refusal::ReceivedUnsettled(_) => Fault::Unsettled,
        }
    }
}

// The text of a refusal: its status, the header lines of its own, and its number of two digits.
macro_rules! refusal {
    ($is_last:expr, $status:literal, $headers:literal, $number:literal) => {
        if $is_last {
            refusal_text!($status, $headers, "Connection: close\r\n", $number)
        } else {
            refusal_text!($status, $headers, "", $number)
        }
    };
}

macro_rules! refusal_text {
    ($status:literal, $headers:literal, $close:literal, $number:literal) => {
        concat!(
            "HTTP/1.1 ",
            $status,
            "\r\nContent-Type: application/json\r\nContent-Length: 15\r\n",
            $headers,
            $close,
            "\r\n{\"refusal\":",
            $number,
            "}\n"
        )
    };
}

impl Allowed {
    // The whole reply where another method was used.
    fn text(self, is_last: bool) -> &'static str
        ensures { result.now ≡ reply_text (Reply.Refused (Fault.BadMethod self)) is_last }
    {
        match self {
            Allowed::Get => refusal!(is_last, "405 Method Not Allowed", "Allow: GET\r\n", "42"),
            Allowed::GetAndPost => {
                refusal!(
                    is_last,
                    "405 Method Not Allowed",
                    "Allow: GET, POST\r\n",
                    "42"
                )
            }
        }
    }
}

// The whole reply where the hub's door refused.
fn door_text(why: DoorRefusal, is_last: bool) -> &'static str
    ensures { result.now ≡ reply_text (Reply.Refused (Fault.Door why)) is_last }
{
    match why {
        DoorRefusal::UnknownCustodian => refusal!(is_last, "404 Not Found", "", "11"),
        DoorRefusal::BadVolume => refusal!(is_last, "404 Not Found", "", "12"),
        DoorRefusal::TooLarge => refusal!(is_last, "413 Content Too Large", "", "13"),
        DoorRefusal::UnknownProfile => refusal!(is_last, "415 Unsupported Media Type", "", "16"),
    }
}

impl Fault {
    /// The whole reply, which takes no memory; `is_last` where the conversation ends after it.
    ///
    /// > status-line = HTTP-version SP status-code SP [ reason-phrase ] (RFC 9112, section 4)
    ///
    /// > The origin server MUST generate an Allow header field in a 405 response containing a list
    /// > of the target resource's currently supported methods. (RFC 9110, section 15.5.6)
    pub fn text(self, is_last: bool) -> &'static str
        ensures { result.now ≡ reply_text (Reply.Refused self) is_last }
    {
        match self {
            Fault::Door(why) => door_text(why, is_last),
            Fault::NotThere => refusal!(is_last, "404 Not Found", "", "17"),
            Fault::BadRequest => refusal!(is_last, "400 Bad Request", "", "40"),
            Fault::NoRoute => refusal!(is_last, "404 Not Found", "", "41"),
            Fault::BadMethod(allowed) => allowed.text(is_last),
            Fault::LengthRequired => refusal!(is_last, "411 Length Required", "", "43"),
            Fault::NotReceived => refusal!(is_last, "503 Service Unavailable", "", "51"),
            Fault::Unsettled => refusal!(is_last, "503 Service Unavailable", "", "52"),
        }
    }
}
