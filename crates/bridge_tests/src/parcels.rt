//! Tests of channels of owned values.
//!
//! - `parcel_calls`: calls whose conditions follow from the calls before
//! - `parcel_rows`: call by call
//! - `parcel_streams`: by a sink and a stream, each of which sleeps while it waits
//! - `parcel_lines`: by two threads that send, one that receives, and one that closes, cancels and drains the channel; and all checks
//!   by threads

#[cfg(test)]
mod parcel_calls;
#[cfg(test)]
pub(crate) mod parcel_lines;
#[cfg(test)]
pub(crate) mod parcel_rows;
#[cfg(test)]
mod parcel_streams;
