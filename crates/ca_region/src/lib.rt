//! A memory region: its key slot, vacant, free for a fast registration, or valid. While it is valid it stands for one
//! grant.
//!
//! To the layers above it promises that each call is refused for the first reason that applies and changes nothing
//! then, and else leaves exactly the region that its table says; and that the places of a region's bytes are those of
//! its grant.
//!
//! Source: InfiniBand Architecture Specification Volume 1, the chapter on the software transport interface, section
//! on memory regions, with the base memory management extensions.
#![tactic(auto)]

mod mapping;
mod pages;
mod places;
mod refusals;
mod region;

pub use ca_base::{RegionError, RegistrationError};
pub use region::Region;
