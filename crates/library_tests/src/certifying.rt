use ix_cert::{CertErr, certify};
use std::alloc::Global;

const HEAD: &[u8] = b"longnail report 1\nperiod 1000\n";

// Five operations: two operands, their sum, a cast and a write.
const OPERATIONS: &[u8] = b"behaviour addx InPipeline\n\
op 0 RdRS1 delay 0 latency 0 early 1 late 2 time 1\n\
op 1 RdRS2 delay 0 latency 0 early 1 late 2 time 1\n\
op 2 add delay 300 latency 0 early 1 late 64 time 1\n\
op 3 cast delay 0 latency 0 early 1 late 64 time 1\n\
op 4 WrRD delay 0 latency 0 early 2 late 4 time 2\n";

const EDGES: &[u8] = b"edge 0 2\nedge 1 2\nedge 2 3\nedge 3 4\n";

const FLOW: &[u8] = b"flow 3 early 0\nflow 2 early 4\nflow 3 dep 0 2\nflow 1 dep 2 3\n";

// The same where the sum's delay passes the period.
const SLOW: &[u8] = b"behaviour mulx none\n\
op 0 RdRS1 delay 0 latency 0 early 1 late 2\n\
op 1 RdRS2 delay 0 latency 0 early 1 late 2\n\
op 2 mul delay 1200 latency 0 early 1 late 64\n\
op 3 cast delay 0 latency 0 early 1 late 64\n\
op 4 WrRD delay 0 latency 0 early 2 late 64\n";

// What is told of a text of these parts.
fn told(alloc: Global, parts: &[&[u8]]) -> Result<(), CertErr> {
    let mut bytes = Vec::new(alloc);
    for part in parts {
        for byte in *part {
            if bytes.push(*byte).is_err() {
                return Err(CertErr::Memory);
            }
        }
    }
    if bytes.len() < 4_294_967_296 {
        certify(alloc, bytes.as_slice())
    } else {
        Err(CertErr::Memory)
    }
}

#[test]
fn a_schedule(rt: HostRuntime) {
    let alloc = rt.alloc();
    assert_eq!(rt; told(alloc, &[HEAD]), Ok(()));
    assert_eq!(rt;
        told(
            alloc,
            &[HEAD, OPERATIONS, EDGES, b"cost 7\n", FLOW, b"end\n"]
        ),
        Ok(())
    );
    assert_eq!(rt;
        told(alloc, &[HEAD, OPERATIONS, EDGES, b"cost 7\n", FLOW, b"end"]),
        Ok(())
    );
    // another flow of the same value
    let early = b"flow 2 early 2\nflow 1 early 3\nflow 2 early 4\n";
    assert_eq!(rt;
        told(
            alloc,
            &[HEAD, OPERATIONS, EDGES, b"cost 7\n", early, b"end\n"]
        ),
        Ok(())
    );
}

#[test]
fn a_cycle(rt: HostRuntime) {
    let alloc = rt.alloc();
    let chain = b"cycle chain 2\n";
    assert_eq!(rt; told(alloc, &[HEAD, SLOW, EDGES, chain, b"end\n"]), Ok(()));
    let line = b"refused NoSchedule mulx\n";
    assert_eq!(rt;
        told(alloc, &[line, HEAD, SLOW, EDGES, chain, b"end\n"]),
        Ok(())
    );
    let other = b"cycle early 0\ncycle dep 0 2\ncycle late 2\n";
    assert_eq!(rt;
        told(alloc, &[line, HEAD, SLOW, EDGES, other, b"end\n"]),
        Err(CertErr::NotPositive { line: 14 })
    );
}

#[test]
fn each_step_of_a_schedule(rt: HostRuntime) {
    let alloc = rt.alloc();
    let cost = b"cost 7\n";
    assert_eq!(rt;
        told(alloc, &[HEAD, OPERATIONS, EDGES, cost, FLOW, b"en"]),
        Err(CertErr::Line { line: 18 })
    );
    let late_operand = b"behaviour addx InPipeline\n\
op 0 RdRS1 delay 0 latency 0 early 1 late 2 time 2\n\
op 1 RdRS2 delay 0 latency 0 early 1 late 2 time 1\n\
op 2 add delay 300 latency 0 early 1 late 64 time 1\n\
op 3 cast delay 0 latency 0 early 1 late 64 time 1\n\
op 4 WrRD delay 0 latency 0 early 2 late 4 time 5\n";
    assert_eq!(rt;
        told(alloc, &[HEAD, late_operand, EDGES, cost, FLOW, b"end\n"]),
        Err(CertErr::Dep { line: 9 })
    );
    let early_write = b"behaviour addx InPipeline\n\
op 0 RdRS1 delay 0 latency 0 early 1 late 2 time 1\n\
op 1 RdRS2 delay 0 latency 0 early 1 late 2 time 1\n\
op 2 add delay 300 latency 0 early 1 late 64 time 1\n\
op 3 cast delay 0 latency 0 early 1 late 64 time 1\n\
op 4 WrRD delay 0 latency 0 early 2 late 4 time 1\n";
    assert_eq!(rt;
        told(alloc, &[HEAD, early_write, EDGES, cost, FLOW, b"end\n"]),
        Err(CertErr::Window { line: 8 })
    );
    let fast = b"longnail report 1\nperiod 299\n";
    assert_eq!(rt;
        told(alloc, &[fast, OPERATIONS, EDGES, cost, FLOW, b"end\n"]),
        Err(CertErr::Chain { line: 6 })
    );
    assert_eq!(rt;
        told(
            alloc,
            &[HEAD, OPERATIONS, EDGES, b"cost 8\n", FLOW, b"end\n"]
        ),
        Err(CertErr::Value { line: 13 })
    );
    // the greatest cost that a report can have
    assert_eq!(rt;
        told(
            alloc,
            &[
                HEAD,
                OPERATIONS,
                EDGES,
                b"cost 18446744073709551615\n",
                FLOW,
                b"end\n"
            ]
        ),
        Err(CertErr::Value { line: 13 })
    );
}

#[test]
fn each_step_of_a_flow(rt: HostRuntime) {
    let alloc = rt.alloc();
    let cost = b"cost 7\n";
    let cases: [(&[u8], CertErr); 7] = [
        (
            b"flow 3 early 0\nflow 2 early 4\nflow 3 dep 0 3\n",
            CertErr::Dep { line: 16 },
        ),
        (
            b"flow 3 early 0\nflow 2 early 4\nflow 3 dep 2 0\n",
            CertErr::Dep { line: 16 },
        ),
        (
            b"flow 3 early 0\nflow 2 early 4\nflow 3 chain 0 1\n",
            CertErr::Chain { line: 16 },
        ),
        (
            b"flow 3 early 0\nflow 2 early 4\nflow 3 chain 0 2\n",
            CertErr::Chain { line: 16 },
        ),
        (
            b"flow 2 early 0\nflow 2 early 4\nflow 3 dep 0 2\nflow 1 dep 2 3\n",
            CertErr::Balance { line: 4 },
        ),
        (
            b"flow 3 early 0\nflow 2 early 4\nflow 3 dep 0 2\nflow 2 dep 2 3\n",
            CertErr::Balance { line: 6 },
        ),
        // in balance, and of the value 5
        (
            b"flow 2 early 2\nflow 3 early 3\nflow 2 dep 3 4\n",
            CertErr::Value { line: 13 },
        ),
    ];
    for (flow, error) in cases {
        assert_eq!(rt;
            told(alloc, &[HEAD, OPERATIONS, EDGES, cost, flow, b"end\n"]),
            Err(error)
        );
    }
}

#[test]
fn each_step_of_a_cycle(rt: HostRuntime) {
    let alloc = rt.alloc();
    let cases: [(&[u8], CertErr); 5] = [
        (b"cycle chain 0 1\n", CertErr::Chain { line: 13 }),
        (b"cycle chain 2\ncycle dep 2 4\n", CertErr::Dep { line: 14 }),
        (b"cycle chain 0 2\n", CertErr::NotClosed { line: 13 }),
        (
            b"cycle early 2\ncycle dep 3 4\ncycle late 2\n",
            CertErr::NotClosed { line: 14 },
        ),
        (
            b"cycle early 2\ncycle late 2\n",
            CertErr::NotPositive { line: 13 },
        ),
    ];
    for (cycle, error) in cases {
        assert_eq!(rt;
            told(alloc, &[HEAD, SLOW, EDGES, cycle, b"end\n"]),
            Err(error)
        );
    }
}

#[test]
fn a_fault_in_the_second_behaviour(rt: HostRuntime) {
    let alloc = rt.alloc();
    let cost = b"cost 7\n";
    let parts = [
        HEAD,
        OPERATIONS,
        EDGES,
        cost,
        FLOW,
        b"end\n",
        SLOW,
        EDGES,
        b"cycle late 2\n",
        b"end\n",
    ];
    assert_eq!(rt; told(alloc, &parts), Err(CertErr::NotClosed { line: 29 }));
}
