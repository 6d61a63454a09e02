// The builder: from graph bytes to the answer form of a lowest-price cover. It sees only what the reader and checker publish, the mathematics, and its
// own parts below: reach and refusal 8 (crates/reach), the working network (crates/wiring), the flow of lowest cost (crates/network) and the paths off a
// flow (crates/paths).
#![tactic(auto)]

// What a build ends with: marks, price, and the answer form in the output.
mod finish;
// The builder's call.
pub mod build;
