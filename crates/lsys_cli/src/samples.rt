//! A script to try the program on: a long axis with a branch at each unit, along which a signal runs, and then one edit of
//! its axiom in the middle.

ghost use Rattle.std.specs.Prelude.{◌≡◌, ◌++◌, ◌+◌, IfOk, OnOk};
ghost use Rattle.lsys_spec.specs.Samples.{sample, sample_axiom, signal_line, units};
ghost use Rattle.lsys_cli.specs.Parts.{growth_lines, end_lines, unit_text};

use itoa::Buffer;
use std::alloc::{AllocError, Global};

/// The script with this number. It has 100 to 799 units, and its edit is at one of them.
///
/// # Errors
///
/// Out of memory.
pub fn sample(alloc: Global, number: u64) -> Result<Vec<u8>, AllocError>
    ensures { IfOk result (λ script. script.items ≡ sample number) }
{
    let units = 100 + number % 700;
    let mut script = Vec::new(alloc);
    push_axiom(&mut script, 0, units)?;
    push_growth(&mut script)?;
    push_axiom(&mut script, 1 + number % units, units)?;
    push_signal(&mut script)?;
    push_end(&mut script, number)?;
    Ok(script)
}

// The line of the rule by which the signal goes on to the next unit of the axis.
fn push_signal(script: &mut Vec<u8>) -> Result<(), AllocError>
    ensures { OnOk result (script.new.items ≡ script.old.items ++ signal_line) }
{
    script.extend_from_slice(b"production s: F_b < F_a => F_b\n")
}

// The lines by which the signal runs.
fn push_growth(script: &mut Vec<u8>) -> Result<(), AllocError>
    ensures { OnOk result (script.new.items ≡ script.old.items ++ growth_lines) }
{
    script.extend_from_slice(b"ignore +-\n")?;
    push_signal(script)?;
    script.extend_from_slice(b"depth 20\n")
}

// The last lines.
fn push_end(script: &mut Vec<u8>, number: u64) -> Result<(), AllocError>
    ensures { OnOk result (script.new.items ≡ script.old.items ++ end_lines number) }
{
    let mut digits = Buffer::new();
    script.extend_from_slice(b"seed ")?;
    script.extend_from_slice(digits.format(number).as_bytes())?;
    script.extend_from_slice(b"\nquit\n")
}

// The line of the axiom with so many units, where the signal begins in this one and, again, at the front.
fn push_axiom(script: &mut Vec<u8>, changed: u64, units: u64) -> Result<(), AllocError>
    ensures { OnOk result (script.new.items ≡ script.old.items ++ sample_axiom changed units) }
{
    script.extend_from_slice(b"axiom F_b")?;
    for unit in 0..units {
        push_unit(script, changed, unit + 1)?;
    }
    script.extend_from_slice(b"\n")
}

// A unit: a branch, and a part of the axis.
fn push_unit(script: &mut Vec<u8>, changed: u64, unit: u64) -> Result<(), AllocError>
    ensures { OnOk result (script.new.items ≡ script.old.items ++ unit_text changed unit) }
{
    let branch = if unit % 2 == 1 { b"[+F_a]" } else { b"[-F_a]" };
    let axis = if unit == changed { b"F_b" } else { b"F_a" };
    script.extend_from_slice(branch)?;
    script.extend_from_slice(axis)
}
