use dup_filter::Released;
use output_logger::OutputLogger;
use std::marker::{Send, Sync};

/// That the values of a type may be used by other threads, and handed to one.
fn go_between_threads<T: Send + Sync>() {}

#[test]
fn numbers_and_loggers_go_between_threads(_rt: HostRuntime) {
    go_between_threads::<Released>();
    go_between_threads::<OutputLogger>();
}
