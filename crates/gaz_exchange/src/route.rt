//! The routes, and what is at a target.
ghost use Rattle.std.specs.Prelude.{◌≡◌, [], false, true, IfSome, IsUtf8, OnOk};
ghost use Rattle.gaz_exchange.specs.Asking.{call_at};
ghost use Rattle.gaz_exchange.specs.Incoming.{IsCallAt};
ghost use Rattle.gaz_exchange.specs.Routing.{routes};
ghost use Rattle.gaz_exchange.specs.Targets.{target_of};

use crate::calls::{
    Method, Routed, closed_call, custodian_call, extract_call, property_call, volume_call,
};
use crate::fault::Fault;
use matchit::{InsertError, Router};
use std::alloc::Global;
use std::marker::Model;

/// What is at a target.
#[derive(Clone, Copy)]
pub enum Place {
    Custodian,
    Volume,
    Extract,
    Uprn,
    Closed,
}

// Adds the routes to a router that has none.
fn add_routes(router: &mut Router<Place>) -> Result<(), InsertError>
    requires { router.old ≡ [] }
    ensures { OnOk result (router.new ≡ routes) }
{
    router.insert("/custodians/{c}/volumes/{v}", Place::Volume)?;
    router.insert("/custodians/{c}", Place::Custodian)?;
    router.insert("/extract/{c}/{v}", Place::Extract)?;
    router.insert("/uprn/{n}", Place::Uprn)?;
    router.insert("/closed", Place::Closed)?;
    Ok(())
}

// The routes; none where there is no memory for them.
fn make_router(alloc: Global) -> Option<Router<Place>>
    ensures { IfSome result (λ router. router ≡ routes) }
{
    let mut router = Router::new(alloc);
    match add_routes(&mut router) {
        Ok(()) => Some(router),
        Err(_) => None,
    }
}

// What a request asks of the hub.
fn find_call(router: &Router<Place>, target: &str, method: Method) -> Result<Routed, Fault>
    requires { router.now ≡ routes }
    ensures { result ≡ call_at (target_of target.now) method }
{
    match router.at(target) {
        Ok(found) => match found.value {
            Place::Volume => volume_call(&found.params, method),
            Place::Custodian => custodian_call(&found.params, method),
            Place::Extract => extract_call(&found.params, method),
            Place::Uprn => property_call(&found.params, method),
            Place::Closed => closed_call(method),
        },
        Err(_) => Err(Fault::NoRoute),
    }
}

/// The routes, which are made when they are first asked for, and then kept. A contract sees whether
/// they are there.
#[derive(Drop)]
pub struct Routes {
    router: Option<Router<Place>>,
}

impl Model for Routes {
    ghost use Rattle.std.specs.Prelude.{◌≡◌, Bool, is_some};
    ghost use Rattle.std.specs.Option.{ForSome};
    ghost use Rattle.gaz_exchange.specs.Routing.{routes};

    ghost Value = { Bool };

    ghost view = { λ r. is_some r.router };

    ghost invariant = { λ r. ForSome r.router (λ made. made ≡ routes) };
}

impl Routes {
    /// None yet: they are made when they are first asked for.
    pub fn new() -> Self
        ensures { result ≡ false }
    {
        Routes { router: None }
    }

    /// What a request asks of the hub. Where there is no memory for the routes it is refusal 51;
    /// once they are there, they stay.
    pub fn call(&mut self, alloc: Global, target: &[u8], method: Method) -> Result<Routed, Fault>
        requires { IsUtf8 target.now }
        ensures call { IsCallAt self.new target.now method result }
        ensures stay { self.old ≡ true → self.new ≡ true }
    {
        let Ok(target) = std::str::from_utf8(target) else {
            unreachable!();
        };
        if self.router.is_none() {
            self.router = make_router(alloc);
        }
        match &self.router {
            Some(router) => find_call(router, target, method),
            None => Err(Fault::NotReceived),
        }
    }
}
