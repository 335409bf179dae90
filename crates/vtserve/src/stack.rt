//! The memory of the stack.

use std::fs::File;
use std::io::Read;

/// How many bytes of the stack a step takes.
const STEP: usize = 65_536;

/// How many steps are taken: 1 MiB, more than any request needs. At its deepest the stack had 800 KiB, in a body of values nested 127 deep, measured on
/// 1 December 2026.
const STEPS: u32 = 16;

/// Takes this many steps of the stack. Each reads nothing into its part, and so keeps it until the others are taken.
fn take_steps(null: &mut File, steps: u32) {
    let mut part = [0; STEP];
    if steps > 1 {
        take_steps(null, steps - 1);
    }
    let _ = null.read(&mut part);
}

/// Takes memory for the stack, before a disk is opened. If the memory of the process is limited (`ulimit -v`), a stack that can't grow ends the process:
/// now, and not in the middle of an edit.
pub(crate) fn take_stack(rt: &HostRuntime) {
    if let Ok(mut null) = File::open(rt, "/dev/null") {
        take_steps(&mut null, STEPS);
    }
}
