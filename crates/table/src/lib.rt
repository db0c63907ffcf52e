// Tables of fields: building one or a bank of it, showing a bank, looking a divisor up, and the tests
// of a whole table.
#![tactic(auto)]

mod banks;
mod builders;
mod fields;
mod lookups;
mod views;

pub use banks::{Stretch, named_bank};
pub use builders::{build, build_bank};
pub use fields::whole_fields;
pub use lookups::{Found, look_up};
pub use views::{show_bank, show_bank_number};
