//! How far each two queues of a core were apart while both had work, beside the proved bound: as text, and as a picture.
#![tactic(auto)]

pub mod column_texts;
pub mod columns;
pub mod core_lags;
pub mod laws;
pub mod line;
pub mod pair_walk;
pub mod pairs;
pub mod panel;
pub mod picture;
pub mod stretch;
pub mod text;

pub use core_lags::{CoreLags, lags_of_run};
pub use pairs::PairLag;
pub use picture::put_lag;
pub use stretch::Lag;
pub use text::put_pair_lines;
