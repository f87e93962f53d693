use input_logger::InputLog;
use std::marker::{Send, Sync};

/// That the values of a type may be used by other threads, and handed to one.
fn go_between_threads<T: Send + Sync>() {}

#[test]
fn inputs_go_between_threads(_rt: HostRuntime) {
    go_between_threads::<InputLog>();
}
