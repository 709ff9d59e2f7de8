//! What [`crate::check_request`] reads on its way, for who reads a signed request part by part.

pub use crate::authorization::{
    Authorization, are_names_and_signature, key_id_before, read_authorization,
};
pub use crate::check::recomputed_signature;
pub use crate::cuts::{cut_end, cut_last};
pub use crate::parameters::query_pairs;
pub use crate::stamp::stamped_moment;
