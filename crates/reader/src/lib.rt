// The queries at an offset, on unchecked files (document 01, "Questions at an offset"), each in a mode, and each proved in its
// own crate.
#![tactic(auto)]

pub use leb128::Mode;
pub use reader_body::{Place, body, body_place};
pub use reader_follow::{Followed, follow};
pub use reader_items::{item, skip};
pub use reader_lookup::lookup;
pub use reader_region::peek;
pub use reader_value::{Value, read};
