//! Updates of a `Packed` that a caller keeps, as callers of the C library do. They take any bytes. A
//! [`Battle`](crate::Battle) is for callers that want its type to guarantee a valid state. The offered choices as a
//! number of twelve bits (docs/MECHANICS.md, "Offered choices"), how many choices it has, and the one at an index: from
//! gen1_offers.
pub use crate::choice_bytes::{
    update_by_bytes, update_events_by_bytes, update_offered_by_bytes, update_silent_by_bytes,
    update_telling_by_bytes,
};
pub use crate::update::{reseed, result, update, update_events, update_offered, update_silent};
pub use gen1_offers::{choice_at, count_of, offered_mask};
