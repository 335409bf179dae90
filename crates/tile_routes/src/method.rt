//! The methods, by their names, and those that a path allows.
ghost use Rattle.std.specs.Prelude.{◌≡◌};
ghost use Rattle.tile_routes.specs.Methods.{methods_of, method_named, method_on, is_among, allow_of};
ghost use Rattle.tile_routes.specs.Targets.{asked_of};

use crate::fault::RouteFault;
use crate::target::Target;

/// A method that some path allows (RFC 9110, 9.1).
#[derive(Clone, Copy, PartialEq, Eq)]
pub enum Method {
    /// To give what the path shows (9.3.1).
    Get,
    /// To give the head of that alone (9.3.2).
    Head,
    /// To put the body in its place (9.3.4).
    Put,
    /// To take it away (9.3.5).
    Delete,
    /// To do with the body what the path says (9.3.3).
    Post,
}

impl Method {
    /// The method with this name, whose case matters (RFC 9110, 9.1).
    #[tactic(auto, unfolding(crate::specs::Methods::name_of))]
    pub fn of(name: &[u8]) -> Option<Method>
        ensures { result ≡ method_named name.now }
    {
        if name == b"GET".as_slice() {
            return Some(Method::Get);
        }
        if name == b"HEAD".as_slice() {
            return Some(Method::Head);
        }
        if name == b"PUT".as_slice() {
            return Some(Method::Put);
        }
        if name == b"DELETE".as_slice() {
            return Some(Method::Delete);
        }
        if name == b"POST".as_slice() {
            return Some(Method::Post);
        }
        None
    }
}

impl Target {
    /// The methods that the path allows, none where it isn't served.
    fn methods(self) -> &'static [Method]
        ensures { result.now ≡ methods_of (asked_of self) }
    {
        match self {
            Target::Tile(..)
            | Target::FeatureFrom(_)
            | Target::FeaturePage(_)
            | Target::FeatureBox(..)
            | Target::EditsFrom(_)
            | Target::View(_) => &[Method::Get, Method::Head],
            Target::Feature(_) => &[Method::Get, Method::Head, Method::Put, Method::Delete],
            Target::EditsAt(_) | Target::Action(_) => &[Method::Post],
            Target::FeatureAt(..) => &[Method::Put],
            Target::Nothing => &[],
        }
    }

    /// Whether the path allows this method.
    pub fn allows(self, method: Method) -> bool
        ensures { result ≡ is_among (methods_of (asked_of self)) method }
    {
        self.methods().contains(&method)
    }

    /// The method with this name, if the path is served and allows it.
    pub fn method(self, name: &[u8]) -> Result<Method, RouteFault>
        ensures { result ≡ method_on name.now (asked_of self) }
    {
        if matches!(self, Target::Nothing) {
            return Err(RouteFault::NotFound);
        }
        match Method::of(name) {
            Some(method) if self.allows(method) => Ok(method),
            _ => Err(RouteFault::NotAllowed),
        }
    }

    /// The value of the field `allow` (RFC 9110, 10.2.1), empty where the path isn't served.
    #[tactic(auto, unfolding(crate::specs::Methods::name_of))]
    pub fn allow(self) -> &'static str
        ensures { result.now ≡ allow_of (asked_of self) }
    {
        match self {
            Target::Tile(..)
            | Target::FeatureFrom(_)
            | Target::FeaturePage(_)
            | Target::FeatureBox(..)
            | Target::EditsFrom(_)
            | Target::View(_) => "GET, HEAD",
            Target::Feature(_) => "GET, HEAD, PUT, DELETE",
            Target::EditsAt(_) | Target::Action(_) => "POST",
            Target::FeatureAt(..) => "PUT",
            Target::Nothing => "",
        }
    }
}
