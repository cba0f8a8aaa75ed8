// Values by numbers, by pairs of numbers, and by what units of analysis ask.
mod pairs;
mod parts;
mod questions;
mod table;
mod units;

pub use pairs::PairTable;
pub use parts::PartTable;
pub use questions::QuestionTable;
pub use table::Table;
pub use units::UnitTable;
