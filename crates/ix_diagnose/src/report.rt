/// What is wrong with a line of a report, and what to write in its place.
pub(crate) fn report_sentence(kind: &str) -> &'static str {
    match kind {
        "Line" =>
            "this line may not stand here, or one is missing: write the lines as `schedule` does",
        "Dep" => {
            "a result is used before it is there, or no such edge exists: write a later time at the edge's end, or an edge of the behaviour"
        }
        "Window" =>
            "the time is outside of the operation's window: write one from `early` to `late`",
        "Chain" => {
            "the delays at one time sum to more than the period, or no such chain exists: write a later time, or a chain of the behaviour"
        }
        "Value" => {
            "the cost is not that of the times, or the flow does not sum to it: write the cost of the times and a flow of that cost"
        }
        "Balance" => {
            "the flow is out of balance at this operation: write amounts whose inflow less outflow is 1 and the edges into it less those out of it"
        }
        "NotClosed" =>
            "this bound does not start where the one before ends: write the bounds in the order of a cycle",
        "NotPositive" =>
            "the numbers of this cycle do not sum to more than 0: write a cycle that demands more",
        _ => "the report is refused: write it as docs/FORMATS.md says",
    }
}
