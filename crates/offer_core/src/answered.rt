//! What a response did.

use crate::offer::Offer;
use extent_list::dcd_codes::dcd_base::Extents;

/// What a response that breaks no rule did (CXL 3.1, 8.2.9.9.9.3).
#[derive(Debug, Drop)]
pub enum Answered {
    /// More is to come: the list is held.
    Held,
    /// There was no offer, and nothing was listed.
    Nothing,
    /// The oldest offer is answered. The accepted extents are the held ones and then the message's, each with the
    /// tag and the sequence of the offered extent in which it lies.
    Done { offer: Offer, accepted: Extents },
}
