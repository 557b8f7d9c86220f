//! Files that can't be read.
use arc_file::file::{FileFault, read_source};

/// Whether what this path names can't be read.
fn fails(rt: &HostRuntime, path: &str) -> bool {
    matches!(read_source(rt, path), Err(FileFault::Failed))
}

#[test]
fn no_source(rt: HostRuntime) {
    assert!(rt; fails(&rt, "no/such/file.m") && fails(&rt, "/"));
}
