//! What the hub is asked at each place, from the parts of the target that its parameters took.
ghost use Rattle.std.specs.Prelude.{◌≡◌, ◌∷◌, [], ℕ, List, codes, IsUtf8};
ghost use Rattle.gaz_ids.specs.Numbers.{read_uprn};
ghost use Rattle.gaz_exchange.specs.Asking.{call_at, look_up, method_of};
ghost use Rattle.gaz_exchange.specs.Routing.{Took};
ghost use Rattle.gaz_exchange.specs.Targets as seen;
ghost use Rattle.gaz_exchange.specs.Targets.{code_in, volume_in};

use crate::fault::{Allowed, Fault};
use gaz_ids::{Code, Uprn, Volume};
use gaz_steps::Question;
use matchit::{Params, ParamsIter};

/// The methods that some target takes, and all others.
#[derive(Clone, Copy)]
pub enum Method {
    Get,
    Post,
    Other,
}

impl Method {
    /// The method of a request.
    ///
    /// > The method token is case-sensitive because it might be used as a gateway to object-based
    /// > systems with case-sensitive method names. (RFC 9110, section 9.1)
    pub fn of(text: &[u8]) -> Method
        ensures { result ≡ method_of text.now }
    {
        if text == b"POST".as_slice() {
            Method::Post
        } else if text == b"GET".as_slice() {
            Method::Get
        } else {
            Method::Other
        }
    }
}

/// What the hub is asked, but for the body. A number that doesn't read stands as 0, which the hub's
/// door refuses.
#[derive(Clone, Copy)]
pub enum Routed {
    Submit { code: u64, volume: u64 },
    Pose(Question),
}

// The code that the text writes, or 0.
fn code_of(text: &str) -> u64
    ensures { result ≡ code_in text.now }
{
    Code::read(text.as_bytes()).map_or(0, Code::number)
}

// The volume that the text writes, or 0.
fn volume_of(text: &str) -> u64
    ensures { result ≡ volume_in text.now }
{
    Volume::read(text.as_bytes()).map_or(0, Volume::number)
}

// The UPRN that the text writes.
fn uprn_of(text: &str) -> Option<Uprn>
    ensures { result ≡ read_uprn text.now }
{
    Uprn::read(text.as_bytes()).ok()
}

// The part of the target that the next parameter took.
fn next_part<'v>(parts: &mut ParamsIter<'_, '_, 'v>) -> &'v str
    ensures { (name part : List ℕ) (rest : List (List ℕ × List ℕ)) → parts.old ≡ (name, part) ∷ rest
        → IsUtf8 part → (result.now ≡ part) × (parts.new ≡ rest) }
{
    match parts.next() {
        Some((_, part)) => part,
        None => "",
    }
}

/// What a request asks of a custodian's volume.
pub fn volume_call(params: &Params<'_, '_>, method: Method) -> Result<Routed, Fault>
    ensures { (c v : List ℕ) → Took params.now ((codes "c", c) ∷ (codes "v", v) ∷ [])
        → result ≡ call_at (seen.Volume c v) method }
{
    let mut parts = params.iter();
    let code = code_of(next_part(&mut parts));
    let volume = volume_of(next_part(&mut parts));
    match method {
        Method::Post => Ok(Routed::Submit { code, volume }),
        Method::Get => Ok(Routed::Pose(Question::Ask { code, volume })),
        Method::Other => Err(Fault::BadMethod(Allowed::GetAndPost)),
    }
}

/// What a request asks of a custodian.
pub fn custodian_call(params: &Params<'_, '_>, method: Method) -> Result<Routed, Fault>
    ensures { (c : List ℕ) → Took params.now ((codes "c", c) ∷ [])
        → result ≡ call_at (seen.Custodian c) method }
{
    let code = code_of(next_part(&mut params.iter()));
    match method {
        Method::Get => Ok(Routed::Pose(Question::Stand { code })),
        Method::Post | Method::Other => Err(Fault::BadMethod(Allowed::Get)),
    }
}

/// What a request asks of an extract.
pub fn extract_call(params: &Params<'_, '_>, method: Method) -> Result<Routed, Fault>
    ensures { (c v : List ℕ) → Took params.now ((codes "c", c) ∷ (codes "v", v) ∷ [])
        → result ≡ call_at (seen.Extract c v) method }
{
    let mut segments = params.iter();
    let code = code_of(next_part(&mut segments));
    let volume = volume_of(next_part(&mut segments));
    match method {
        Method::Get => Ok(Routed::Pose(Question::Extract { code, volume })),
        Method::Post | Method::Other => Err(Fault::BadMethod(Allowed::Get)),
    }
}

/// What a request asks of a property.
pub fn property_call(params: &Params<'_, '_>, method: Method) -> Result<Routed, Fault>
    ensures { (n : List ℕ) → Took params.now ((codes "n", n) ∷ [])
        → result ≡ call_at (seen.Property n) method }
{
    let uprn = uprn_of(next_part(&mut params.iter()));
    match method {
        Method::Get => look_up(uprn),
        Method::Post | Method::Other => Err(Fault::BadMethod(Allowed::Get)),
    }
}

// A number that doesn't read is that of no property.
fn look_up(uprn: Option<Uprn>) -> Result<Routed, Fault>
    ensures { result ≡ look_up uprn }
{
    match uprn {
        Some(uprn) => Ok(Routed::Pose(Question::LookUp { uprn })),
        None => Err(Fault::NotThere),
    }
}

/// What a request asks of the closed streets.
pub fn closed_call(method: Method) -> Result<Routed, Fault>
    ensures { result ≡ call_at seen.Closed method }
{
    match method {
        Method::Get => Ok(Routed::Pose(Question::ListClosed)),
        Method::Post | Method::Other => Err(Fault::BadMethod(Allowed::Get)),
    }
}
