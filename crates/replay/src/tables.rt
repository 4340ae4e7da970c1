// Cases of tables and of the encoder, which need no engine.
pub(crate) mod encoder;
pub(crate) mod packing;
