//! A memory window: its key slot, vacant, or of type 1 or type 2, unbound or bound. While it is bound it stands for a
//! part of what its region grants.
//!
//! To the layers above it promises that a bind, an invalidation and a deallocation are refused for the first reason
//! that applies and change nothing then, and else leave exactly the window that the tables say.
//!
//! Source: InfiniBand Architecture Specification Volume 1, the chapter on the software transport interface, section on
//! memory windows, with the base memory management extensions.
#![tactic(auto)]

mod binding;
mod refusals;
mod rights;
mod view;
mod window;

pub use ca_base::WindowError;
pub use view::WindowView;
pub use window::Window;
