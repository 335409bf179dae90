//! Why a request is refused by its path and its method.

/// Why a request is refused by its path and its method.
#[derive(Clone, Copy)]
pub enum RouteFault {
    /// The path isn't served, whatever the method.
    NotFound,
    /// The path doesn't allow the method; `Target::allow` lists those that it does.
    NotAllowed,
}
