//! A network as a picture: text in DOT, the language that graphviz draws.
//!
//! Each ISD is a box. In a network of up to 20 ASes each of its ASes is a box in it, with the AS's
//! name, its routers as small circles and its interfaces as numbers; each link is a line between
//! two interfaces. A larger network has a node for each AS; a link between core ASes is a point
//! above them with a line to each, so that no two lie upon one another, and a link to a child a
//! line with the interfaces at its ends. A core AS is bold, a link to a child an arrow, and a link
//! that is cut dashed; lines below the picture say what each line, colour and number means. For a
//! packet, the links that it has passed are marked, and so is the router, or in a larger network
//! the AS, that has it. The text has some hundred bytes for each AS and each router, and some five
//! hundred for each link.
#![tactic(auto)]

mod detailed;
mod dot;
mod extent;
pub mod laws;
mod layered;
mod layers;
mod looks;
mod marks;
mod names;
mod overview;
mod scene;

pub use dot::{MAX_DETAILED, MAX_OVERVIEW, network_dot};
pub use extent::{Centre, Extent, has_central};
pub use marks::{Router, was_passed};
