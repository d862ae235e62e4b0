use crate::done::Done;
use crate::given::{Given, Why, given_in};
use crate::walk::done_by;
use ix_flow::FlowErr;
use ix_graphs::graph_of;
use std::alloc::Global;

/// What a behaviour does in a case, through its graph.
pub fn done_in(alloc: Global, case: &[u8]) -> Result<Done, Why> {
    let Given { extension, case } = given_in(alloc, case)?;
    match graph_of(alloc, &extension, case.which) {
        Ok(graph) => match done_by(alloc, &graph, &case) {
            Ok(done) => Ok(done),
            Err(_) => Err(Why::Memory),
        },
        Err(FlowErr::TooManyOps) => Err(Why::TooManyOps),
        Err(FlowErr::Memory) => Err(Why::Memory),
    }
}
