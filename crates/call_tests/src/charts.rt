//! The reader of charts that the program doesn't call.
use batch_reader::read_chart;
use std::alloc::Global;

/// Whether the text is read as a chart.
fn is_read(alloc: Global, text: &str) -> bool {
    read_chart(alloc, text.as_bytes()).is_ok()
}

#[test]
fn charts_are_read(rt: HostRuntime) {
    assert!(rt; is_read(rt.alloc(), "seq(a,par(b,c))"));
}
