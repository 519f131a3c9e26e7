// The functions for programs in other languages, which c_api_c exports.
// Each stands under the name that C has, so that the two runs are two functions.
#![tactic(auto)]

pub mod check;
pub mod inspection;
pub mod path;
pub mod read;
pub mod run;
pub mod step;
