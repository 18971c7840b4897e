// A WAV file of 32-bit float samples: its header, and samples interleaved as its data.
#![tactic(auto)]

pub mod frames;
pub mod header;
