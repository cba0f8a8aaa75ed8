//! Tells the listeners of a watch session what an update answered.
//!
//! The model: a list of listeners, each with the reports that it has heard and its count of faults.
//! A telling leaves in the list those whose call did not fail, and moves the others to the end of
//! `gone`, both in their order.
//! Public calls: `tell_all`.
//! The crate stands on `zw_base` alone.
#![tactic(auto)]

mod tell;

pub use tell::tell_all;
