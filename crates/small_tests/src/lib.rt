//! Tests of crates that take no text, and nothing else. They stand in a crate of their own, so that those below are proved once.
//!
//! `devices` tries the loops of `counted_devices` with readers and writers that take or give one byte at each second turn and
//! answer Interrupted at the others, within and past their turns, and a writer that can't be flushed. What a device that fails
//! does to a script's run is tried in `tests/device_runs.rs`. `values` tries the lists of `design_model`, and its sorting of
//! lines with bytes from 128 up, prefixes and repeats. `wires` goes over a path of one wire by `wire_shapes`: its traits at
//! types of their own.
#![tactic(auto)]

#[cfg(test)]
mod devices;
#[cfg(test)]
mod values;
#[cfg(test)]
mod wires;
