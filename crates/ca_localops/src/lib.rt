//! The local operations of a send queue: a bind, a fast registration and an invalidation, over the parts that they
//! name, with the counts of bound windows kept true.
//!
//! To the layers above it promises that each is refused for the first reason that applies and changes nothing then, and
//! else revokes and grants exactly what its request asks for.
//!
//! Source: InfiniBand Architecture Specification Volume 1, the chapter on the software transport interface, sections on
//! memory windows and on the base memory management extensions.
#![tactic(auto)]

mod bind_over_parts;
mod binding;
mod fast_registration;
mod invalidation;
mod marks;
mod request;

pub use bind_over_parts::bind;
pub use ca_base::OpRefusal;
pub use ca_region;
pub use ca_window;
pub use fast_registration::fast;
pub use invalidation::invalidate;
pub use marks::{Marks2, OpError};
pub use request::{BindKind, BindRequest};
