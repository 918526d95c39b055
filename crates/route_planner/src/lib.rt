//! Routes from the candidate pins of a codec to its output converters, for analog pins and for digital ones, and the
//! route from an input converter to the first pin that can record.
#![tactic(auto)]

mod allowed;
mod direction;
mod inputs;
mod laws;
mod left;
mod levels;
mod pairs;
mod planner;
mod routes;
mod walk;

pub use codec_graph::{PinKind, digital_order, one_order, one_order_of_each_kind, order, order_as};
pub use inputs::input_plan;
pub use laws::one_input_plan;
pub use pairs::is_headphone;
pub use planner::{digital_plan, plan, plan_as};
pub use routes::{Hop, Outcome, PinPlan, Plan, Route};
pub use stream_format::{Bits, Format, Rate};
