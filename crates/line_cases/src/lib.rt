// Both lines, run: long random runs beside a plain list of frames, and ports filled to the brim.
#![tactic(auto)]

// Numbers that look random, the same in every run.
#[cfg(test)]
mod random;

// A line as a plain list of frames.
#[cfg(test)]
mod model;

// A line and its model, side by side.
#[cfg(test)]
mod pair;

// Long runs.
#[cfg(test)]
mod runs;

// Ports filled to the brim.
#[cfg(test)]
mod brim;
