//! A feed makes its leader's store. The functions do nothing: each law is the contract.
#![tactic(auto)]

mod laws;

pub use laws::{
    a_feed_goes_on_over_its_base, a_feed_makes_its_leaders_store, what_is_led_is_followed,
};
