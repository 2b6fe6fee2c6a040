//! Programs that another program made from the same rule.

use crate::generate;
use std::alloc::Global;
use std::process::Abort;
use std::test::Fail;

/// A program with a line of each kind: that of the seed 36 with 9 lines.
const EACH_KIND: &str = r#"OPENQASM 3.0;
include "stdgates.inc";
qubit[8] q;
bit[8] c;
int n = 0;
while (n < 2) { n += 1; if (c[1]) break; }
rz(pi/32) q[6];
for int i in [0:6] cx q[i], q[i+1];
c[0] = measure q[7];
if (c[2]) { x q[4]; n += 1; }
h q[6];
if (c[5]) { x q[0]; n += 1; }
cx q[5], q[6];
if (n > 4) { n = n - 1; reset q[1]; } else { n += 4; }
"#;

#[test]
fn generates_each_kind(rt: HostRuntime) -> Result<(), Fail> {
    let generated = generate(rt.alloc(), 36, 9).ok().ok_or("out of memory")?;
    let outcomes = [true, true, false, false, false, true, true, true, false];
    assert_eq!(rt; generated.text.as_slice(), EACH_KIND.as_bytes());
    assert_eq!(rt; generated.outcomes.as_slice(), outcomes.as_slice());
    Ok(())
}
