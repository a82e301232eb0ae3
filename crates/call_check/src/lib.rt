// What preparation, starting and hearing begin with: the checks of what each host is lent, one by one as a call is.
#![tactic(auto)]

mod checking;
mod day;

pub use checking::{check_dealer, check_lent};
pub use day::{CheckedDay, Day, check_day_dealer, check_day_lent};
