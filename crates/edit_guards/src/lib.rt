//! Who may refuse an edit: what they are told of it, and what they allow.
#![tactic(auto)]

mod facts;
mod guard;
mod guards;
mod laws;
mod quota;
mod style_lock;

pub use facts::Facts;
pub use guard::Guard;
pub use guards::{first_refuser, note_all};
pub use laws::first_refuser_is_one;
pub use quota::UnitQuota;
pub use style_lock::StyleLock;
