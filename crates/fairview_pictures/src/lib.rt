//! The trace of a run, in the trace event format that Perfetto and chrome://tracing open.
//!
//! Pictures of a run: its polls on the clocks of its cores, as SVG.
#![tactic(auto)]

pub mod actors;
pub mod cut;
pub mod events;
pub mod frame;
pub mod gantt;
pub mod lanes;
pub mod lead;
pub mod marks;
pub mod note_events;
pub mod notes;
pub mod parts;
pub mod shapes;
pub mod style;
pub mod times;
pub mod trace;

pub use cut::Cut;
pub use gantt::put_gantt;
pub use lead::put_greatest_lead;
pub use trace::put_trace;
