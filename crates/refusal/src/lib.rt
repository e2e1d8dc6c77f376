// Why a call of the product says no: one enum for all of it, with a number and a reason for each case.
#![tactic(auto)]

mod conversion;
mod display;
mod reason;
mod refusal;

pub use conversion::UnknownNumber;
pub use refusal::Refusal;
