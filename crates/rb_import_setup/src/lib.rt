//! Setups: what `import` is told of a relayer, as a script without events whose clients may leave
//! out how they judge headers, and whose chains may say who sends transactions to them; or the first fault of such a text. What a setup has as a script has
//! it is read as `rb_script_config` reads it. And what is left of a setup without some clients and paths; and a setup made of
//! Hermes' configuration, in which what that doesn't tell is a guess, or left to be written.
#![tactic(auto)]

mod chain;
mod client;
mod fee;
mod hermes_chain;
mod hermes_client;
mod hermes_error;
mod hermes_fees;
mod hermes_setup;
mod path;
mod reading;
mod rest;
mod sender;
mod setup;
mod telling;
mod turn;
mod window;

pub use fee::{Ratio, fee_amount, gas_limit};
pub use hermes_client::NamedClient;
pub use hermes_error::HermesError;
pub use hermes_setup::setup_of;
pub use reading::read_setup;
pub use rest::{Rest, rest_without};
pub use sender::{Sender, UpdateField};
pub use setup::{ClientSetup, ImportSetup, PathSetup, TrustSetup, TurnSetup};
pub use telling::is_setup;
