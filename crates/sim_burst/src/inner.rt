// Steps of the plain engine's runs. The functions require that numbers lie inside their bounds.
pub mod burst;
pub mod entries;
pub mod packed;
pub mod step;
pub mod table;
